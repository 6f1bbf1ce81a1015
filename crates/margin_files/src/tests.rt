// Boundary cases of settings files and journals.
use super::{Calls, FormFault, JournalCall, check_journal, count, rate, read_settings};
use ledger::Posting;
use std::test::Fail;

const RATES: &[u8] = b"Multiplier,1.00\nCredit,1000\nFloor_Rate,0.0250\n";

// How many calls a journal has, or its faulty line below zero. With no contract it keeps the texts out of the tests' proofs.
fn calls(text: &[u8]) -> i64 {
    match check_journal(text) {
        Ok(calls) => (calls % 1000) as i64,
        Err(FormFault { line }) => -((line % 1000) as i64),
    }
}

// The first call of a journal: what is posted or, as a posting of kind 9, cancelled.
fn first_call(text: &[u8]) -> Posting {
    let mut left = Calls::new(text);
    let none = Posting {
        number: 0,
        kind: 9,
        stock: 0,
        quantity: 0,
        contract_value: 0,
        market_value: 0,
    };
    match left.next() {
        Some(JournalCall::Post(posting)) => posting,
        Some(JournalCall::Cancel { number }) => Posting { number, ..none },
        None => none,
    }
}

// The faulty line of a settings file, or 0.
fn faulty_line(text: &[u8]) -> usize {
    match read_settings(text) {
        Ok(_) => 0,
        Err(fault) => fault.line,
    }
}

// The multiplier of a settings file, or 0.
fn multiplier(text: &[u8]) -> u32 {
    match read_settings(text) {
        Ok(settings) => settings.multiplier,
        Err(_) => 0,
    }
}

// The first and the last place of the IPO stocks.
fn ipo(text: &[u8]) -> (u32, u32) {
    match read_settings(text) {
        Ok(settings) => (settings.ipo[0], settings.ipo[15]),
        Err(_) => (0, 0),
    }
}

fn rate_of(text: &[u8]) -> u32 {
    rate(text).unwrap_or(1)
}

fn count_of(text: &[u8]) -> usize {
    count(text).unwrap_or(1)
}

#[test]
fn lines_of_a_journal(rt: HostRuntime) -> Result<(), Fail> {
    assert_eq!(rt; calls(b""), 0);
    assert_eq!(rt; calls(b"cancel,5"), 1);
    assert_eq!(rt; calls(b"cancel,5\n"), 1);
    assert_eq!(rt; calls(b"post,1,0,11,1000,99000,100000\r\ncancel,5\r\n"), 2);
    assert_eq!(rt; calls(b"cancel,5\n\ncancel,6\n"), -2);
    assert_eq!(rt; calls(b"cancel,5\n\n"), -2);
    assert_eq!(rt; calls(b"\n"), -1);
    assert_eq!(rt; calls(b"cancel,5\r"), -1);
    assert_eq!(rt; calls(b"Cancel,5"), -1);
    Ok(())
}

#[test]
fn cells_of_a_call(rt: HostRuntime) -> Result<(), Fail> {
    assert_eq!(rt; calls(b"cancel"), -1);
    assert_eq!(rt; calls(b"cancel,"), -1);
    assert_eq!(rt; calls(b"cancel,1,"), -1);
    assert_eq!(rt; calls(b"post,1,0,11,1,1"), -1);
    assert_eq!(rt; calls(b"post,1,0,11,1,1,1,1"), -1);
    assert_eq!(rt; calls(b"cancel,+1"), -1);
    assert_eq!(rt; calls(b"cancel,1.0"), -1);
    assert_eq!(rt; calls(b"cancel,-"), -1);
    assert_eq!(rt; calls(b"cancel,-0"), 1);
    assert_eq!(rt; calls(b"cancel,000000000000000001"), 1);
    assert_eq!(rt; calls(b"cancel,0000000000000000001"), -1);
    Ok(())
}

#[test]
fn numbers_that_do_not_fit(rt: HostRuntime) -> Result<(), Fail> {
    assert_eq!(rt; first_call(b"cancel,100000000000000000").number, u32::MAX);
    assert_eq!(rt; first_call(b"cancel,-1").number, u32::MAX);
    assert_eq!(rt; first_call(b"cancel,4294967295").number, u32::MAX);
    assert_eq!(rt; first_call(b"cancel,007").number, 7);
    let posting = first_call(b"post,1,-1,2,-999999999999999999,999999999999999999,-0");
    assert_eq!(rt; posting.kind, u32::MAX);
    assert_eq!(rt; posting.quantity, -999_999_999_999_999_999);
    assert_eq!(rt; posting.contract_value, 999_999_999_999_999_999);
    assert_eq!(rt; posting.market_value, 0);
    Ok(())
}

const NINE: &[u8] =
    b"Multiplier,1.00\r\nCredit,1000\r\nFloor_Rate,0.0250\r\nLiquidation,40\r\nStructured_Product,0\r\nPosition_Limit,50\r\nCredit_Risk,0\r\nAd_Hoc,0\r\nIPO";

const SIXTEEN: &[u8] =
    b"Multiplier,999.9\nCredit,-1\nFloor_Rate,9999.9999\nLiquidation,0\nStructured_Product,0\nPosition_Limit,0\nCredit_Risk,0\nAd_Hoc,0\nIPO,11,2,3,4,5,6,7,8,9,10,11,12,13,14,15,99999\n";

const SEVENTEEN: &[u8] =
    b"Multiplier,1\nCredit,0\nFloor_Rate,0\nLiquidation,0\nStructured_Product,0\nPosition_Limit,0\nCredit_Risk,0\nAd_Hoc,0\nIPO,1,2,3,4,5,6,7,8,9,10,11,12,13,14,15,16,17\n";

const EMPTY_STOCK: &[u8] =
    b"Multiplier,-1\nCredit,0\nFloor_Rate,0\nLiquidation,0\nStructured_Product,0\nPosition_Limit,0\nCredit_Risk,0\nAd_Hoc,0\nIPO,\n";

const TEN: &[u8] =
    b"Multiplier,1\nCredit,0\nFloor_Rate,0\nLiquidation,0\nStructured_Product,0\nPosition_Limit,0\nCredit_Risk,0\nAd_Hoc,0\nIPO\n\n";

const NEGATIVE: &[u8] =
    b"Multiplier,-1\nCredit,0\nFloor_Rate,0\nLiquidation,0\nStructured_Product,0\nPosition_Limit,0\nCredit_Risk,0\nAd_Hoc,0\nIPO\n";

#[test]
fn lines_of_settings(rt: HostRuntime) -> Result<(), Fail> {
    assert_eq!(rt; faulty_line(NINE), 0);
    assert_eq!(rt; faulty_line(b""), 1);
    assert_eq!(rt; faulty_line(RATES), 4);
    assert_eq!(rt; faulty_line(b"Multiplier,1.005\n"), 1);
    assert_eq!(rt; faulty_line(b"Multiplier,1.00,\n"), 1);
    assert_eq!(rt; faulty_line(b"Multiplier,1.0000000000\n\n"), 2);
    assert_eq!(rt; faulty_line(b"Credit,1.00\n"), 1);
    assert_eq!(rt; faulty_line(b"Multiplier,1\nCredit,1.0\n"), 2);
    assert_eq!(rt; faulty_line(TEN), 10);
    Ok(())
}

#[test]
fn stocks_and_rates(rt: HostRuntime) -> Result<(), Fail> {
    assert_eq!(rt; faulty_line(SIXTEEN), 0);
    assert_eq!(rt; ipo(SIXTEEN).0, 11);
    assert_eq!(rt; ipo(SIXTEEN).1, 99_999);
    assert_eq!(rt; multiplier(SIXTEEN), 99_990);
    assert_eq!(rt; faulty_line(SEVENTEEN), 9);
    assert_eq!(rt; faulty_line(EMPTY_STOCK), 9);
    assert_eq!(rt; multiplier(NEGATIVE), u32::MAX);
    Ok(())
}

#[test]
fn words_of_the_command_line(rt: HostRuntime) -> Result<(), Fail> {
    assert_eq!(rt; rate_of(b"0.06"), 600);
    assert_eq!(rt; rate_of(b"2"), 20_000);
    assert_eq!(rt; rate_of(b"-0.06"), u32::MAX);
    assert_eq!(rt; rate_of(b"0.06001"), 1);
    assert_eq!(rt; count_of(b"0"), 0);
    assert_eq!(rt; count_of(b"00064"), 64);
    assert_eq!(rt; count_of(b"18446744073709551615"), usize::MAX);
    assert_eq!(rt; count_of(b"99999999999999999999999999"), usize::MAX);
    assert_eq!(rt; count_of(b""), 1);
    assert_eq!(rt; count_of(b"+5"), 1);
    Ok(())
}
