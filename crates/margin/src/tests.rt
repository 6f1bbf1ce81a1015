// The posts and cancels of a day, hostile orders of them, and each question that refuses one.
use super::{OpenAccount, Request, check_open, day, open};
use fallback_source::FallbackSource;
use ledger::{EntryRefusal, GivenAmounts, Kind, Place, Posting, Settings};
use margin_rules::{Assessment, Holding, Outcome};

fn settings() -> Settings {
    Settings {
        multiplier: 100,
        credit: 1_000,
        floor_rate: 250,
        given: GivenAmounts {
            liquidation: 40,
            structured_product: 0,
            position_limit: 50,
            credit_risk: 0,
            ad_hoc: 0,
        },
        ipo: [0; 16],
    }
}

// The number that an opening is refused with, or 0 where it passes.
fn opening(places: usize, settings: &Settings) -> u32 {
    match ledger::check_opening(places, settings) {
        Ok(()) => 0,
        Err(refusal) => refusal.number(),
    }
}

fn opened<'a>(table: &'a mut [Place]) -> Option<OpenAccount<'a>> {
    let settings = settings();
    if check_open(table, &settings).is_ok() {
        Some(open(table, settings))
    } else {
        None
    }
}

fn posting(number: u32, kind: u32, stock: u32, market_value: i64) -> Posting {
    Posting {
        number,
        kind,
        stock,
        quantity: 1,
        contract_value: 0,
        market_value,
    }
}

// What a post or a cancel answers: 0 and the count of live entries, or the number of the refusal and 0.
fn told(answer: Result<u32, EntryRefusal>) -> (u32, u32) {
    match answer {
        Ok(live) => (0, live),
        Err(refusal) => (refusal.number(), 0),
    }
}

#[test]
fn a_day(rt: HostRuntime) {
    let mut table = [Place::Cancelled { number: 5 }; 8];
    let Some(mut account) = opened(&mut table) else {
        panic!(rt; "the account is not opened");
    };
    assert_eq!(rt; told(account.post(posting(1, 0, 11, 100_000))), (0, 1));
    assert_eq!(rt; told(account.post(posting(2, 0, 22, -40_000))), (0, 2));
    assert_eq!(rt; told(account.post(posting(3, 0, 33, 5_000))), (0, 3));
    assert_eq!(rt; told(account.post(posting(4, 1, 44, 400))), (0, 4));
    assert_eq!(rt; told(account.post(posting(5, 0, 11, 50_000))), (0, 5));
    assert_eq!(rt; told(account.cancel(5)), (0, 4));
    assert_eq!(rt;
        told(account.post(posting(5, 0, 11, 50_000))),
        (24, 0),
        "a cancelled entry comes back"
    );
}

#[test]
fn hostile_orders(rt: HostRuntime) {
    let mut table = [Place::Free; 2];
    let Some(mut account) = opened(&mut table) else {
        panic!(rt; "the account is not opened");
    };
    assert_eq!(rt; told(account.cancel(7)), (0, 0), "an unknown number");
    assert_eq!(rt;
        told(account.post(posting(7, 0, 11, 1))),
        (24, 0),
        "a post behind its cancel"
    );
    assert_eq!(rt; told(account.cancel(7)), (24, 0), "cancelled twice");
    assert_eq!(rt; told(account.post(posting(8, 0, 11, 1))), (0, 1));
    assert_eq!(rt;
        told(account.post(posting(8, 0, 12, 2))),
        (25, 0),
        "posted twice"
    );
    assert_eq!(rt; told(account.post(posting(9, 0, 11, 1))), (26, 0));
    assert_eq!(rt; told(account.cancel(9)), (26, 0), "no place for it");
    assert_eq!(rt; told(account.cancel(8)), (0, 0), "a live entry needs none");
}

#[test]
fn questions_in_their_order(rt: HostRuntime) {
    let mut table = [Place::Free; 1];
    let Some(mut account) = opened(&mut table) else {
        panic!(rt; "the account is not opened");
    };
    assert_eq!(rt;
        told(account.post(posting(0, 4, 0, 20_000_000_001))),
        (21, 0)
    );
    assert_eq!(rt;
        told(account.post(posting(1_000_000_000, 0, 1, 0))),
        (21, 0)
    );
    assert_eq!(rt; told(account.cancel(0)), (21, 0));
    assert_eq!(rt;
        told(account.post(posting(1, 4, 1, 20_000_000_001))),
        (22, 0)
    );
    assert_eq!(rt; told(account.post(posting(1, 3, 100_000, 0))), (22, 0));
    assert_eq!(rt;
        told(account.post(posting(1, 3, 99_999, -20_000_000_001))),
        (23, 0)
    );
    assert_eq!(rt;
        told(account.post(posting(999_999_999, 3, 99_999, -20_000_000_000))),
        (0, 1)
    );
}

#[test]
fn openings(rt: HostRuntime) {
    let day = settings();
    assert_eq!(rt; opening(0, &day), 11, "no place");
    assert_eq!(rt; opening(1, &day), 0);
    assert_eq!(rt; opening(4_096, &day), 0);
    assert_eq!(rt; opening(4_097, &day), 11, "more places than the most");
    let mut other = settings();
    other.multiplier = 401;
    assert_eq!(rt; opening(1, &other), 12, "a multiplier above 4");
    assert_eq!(rt; opening(0, &other), 11, "the table is asked first");
    other = settings();
    other.ipo[15] = 100_000;
    assert_eq!(rt; opening(1, &other), 12, "an IPO stock beyond the last");
    other.ipo[15] = 99_999;
    assert_eq!(rt; opening(1, &other), 0);
    other.given.ad_hoc = 1_000_000_000_001;
    assert_eq!(rt; opening(1, &other), 12, "an add-on beyond the most");
}

const NO_OUTCOME: Outcome = Outcome {
    total: 7,
    scenario: 7,
};

const NO_HOLDING: Holding = Holding {
    kind: Kind::Stock,
    stock: 0,
    market_value: 0,
};

// A whole day over one rate of 0.06, and what it leaves in the first places of the sheets and the list.
fn whole_day(
    places: &mut [Place],
    requests: &[Request],
) -> Result<(Assessment, bool, Holding), u32> {
    let Ok(source) = FallbackSource::new(600) else {
        return Err(9);
    };
    let mut totals = [7i64; 2];
    let mut row = [7i32; 1];
    let mut tail = [NO_OUTCOME; 1];
    let mut holdings = [NO_HOLDING; 2];
    let mut plain = settings();
    plain.given.liquidation = 0;
    plain.given.position_limit = 0;
    plain.credit = 0;
    match day(
        places,
        plain,
        requests,
        &source,
        &mut totals,
        &mut row,
        &mut tail,
        &mut holdings,
    ) {
        Ok(figures) => Ok((
            figures,
            totals[0] == 0 && row[0] == 0 && tail[0].total == 0,
            holdings[0],
        )),
        Err(refusal) => Err(refusal.number()),
    }
}

#[test]
fn a_whole_day_over_the_fallback(rt: HostRuntime) {
    let requests = [
        Request::Post(posting(1, 0, 5, 1_000_000)),
        Request::Post(posting(2, 0, 700, -400_000)),
        Request::Assess,
        Request::Post(posting(3, 0, 700, -5_000_000)),
        Request::Cancel(3),
        Request::Post(posting(3, 0, 700, -5_000_000)),
    ];
    let mut table = [Place::Free; 4];
    let Ok((figures, cleared, first)) = whole_day(&mut table, &requests) else {
        panic!(rt; "the day is refused");
    };
    assert_eq!(rt; figures.flat_rate, 60_000);
    assert_eq!(rt; figures.rounded, 250_000);
    assert_eq!(rt; figures.positions, 0);
    assert_eq!(rt; cleared, true, "the sheets are cleared");
    assert_eq!(rt; (first.stock, first.market_value), (5, 1_000_000));
    assert_eq!(rt;
        table[2].number(),
        3,
        "the cancelled number keeps its place"
    );
    assert_eq!(rt; whole_day(&mut table[0..0], &requests).err(), Some(11));
    let missing = [Request::Post(posting(1, 2, 5, 1))];
    assert_eq!(rt; whole_day(&mut table, &missing).err(), Some(31));
}
