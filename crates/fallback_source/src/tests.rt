// The rates that a fallback source can have, and what it tells.
use super::FallbackSource;
use return_source::{EntitlementType, ReturnSource, ScenarioSet};

// What a rate is answered: the flat rate of a stock, 0 where it has none, or the number of the refusal.
fn answer(rate: u32, stock: u32) -> Result<u32, u32> {
    match FallbackSource::new(rate) {
        Ok(source) => Ok(source.flat_rate(stock).unwrap_or(0)),
        Err(refusal) => Err(refusal.number()),
    }
}

#[test]
fn rates_in_range(rt: HostRuntime) {
    assert_eq!(rt; answer(599, 5), Err(9));
    assert_eq!(rt; answer(600, 5), Ok(600));
    assert_eq!(rt; answer(10_000, 5), Ok(10_000));
    assert_eq!(rt; answer(10_001, 5), Err(9));
}

#[test]
fn every_stock_is_flat(rt: HostRuntime) {
    assert_eq!(rt; answer(600, 0), Ok(0));
    assert_eq!(rt; answer(600, 1), Ok(600));
    assert_eq!(rt; answer(600, 99_999), Ok(600));
    assert_eq!(rt; answer(600, 100_000), Ok(0));
}

#[test]
fn no_rows(rt: HostRuntime) {
    let mut sheet = [7; 2];
    let answer = match FallbackSource::new(600) {
        Ok(source) => {
            assert!(rt; source.entitlement(EntitlementType::Div, 5).is_none());
            match source.write_row(ScenarioSet::Stress, 5, &mut sheet) {
                Ok(_) => 0,
                Err(refusal) => refusal.number(),
            }
        }
        Err(refusal) => refusal.number(),
    };
    assert_eq!(rt; answer, 34);
    assert_eq!(rt; sheet, [7; 2]);
}
