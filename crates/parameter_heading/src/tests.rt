// A heading of three historical and two stress scenarios, and the question and the line of each fault.
use super::groups::{levels, weights};
use super::titles::titles;
use super::{Fault, heading};
use parameter_text::Lines;
use std::test::Fail;

// The question's number and the line's, or zeros where there is no fault.
fn fault<T: Drop>(answer: Result<T, Fault>) -> (u32, u32) {
    match answer {
        Ok(_) => (0, 0),
        Err(f) => (f.question.number(), f.line),
    }
}

#[test]
fn whole_heading(rt: HostRuntime) -> Result<(), Fail> {
    let text =
        b"Valuation_DT,29/2/2024\r\nHVaR_WGT,0.75\r\nSVaR_WGT,0.25\nHVaR_Scen_Count,3\nSVaR_Scen_Count,02\nSTV_Count,0\nHVaR_CL,0.3333\nSVaR_CL,0\nHVaR_Measure,4\nSVaR_Measure,4\nRounding,100\nHoliday_Factor,0.0000000001\nInstrumentId,FieldType,1,2,3\n1,R";
    match heading(text) {
        Ok((h, rest)) => {
            assert_eq!(rt; h.date.day, 29);
            assert_eq!(rt; h.parameters.stress.weight.ten_thousandths, 2_500);
            assert_eq!(rt; h.parameters.historical.tail, 3);
            assert_eq!(rt; h.parameters.stress.tail, 2);
            assert_eq!(rt; h.parameters.holiday_factor, 1);
            assert_eq!(rt; rest.len(), 3);
            Ok(())
        }
        Err(_) => Err(Fail::new("refused")),
    }
}

#[test]
fn first_lines(rt: HostRuntime) {
    assert_eq!(rt; fault(heading(b"")), (2, 1), "no line");
    assert_eq!(rt;
        fault(heading(b"Valuation_Date,29/2/2024\n")),
        (3, 1),
        "another name"
    );
    assert_eq!(rt;
        fault(heading(b"Valuation_DT,29/2/2024,\n")),
        (4, 1),
        "a spare cell"
    );
    assert_eq!(rt;
        fault(heading(b"Valuation_DT,\n")),
        (5, 1),
        "an empty value"
    );
    assert_eq!(rt;
        fault(heading(b"Valuation_DT,30/2/2024\n")),
        (6, 1),
        "no day"
    );
    assert_eq!(rt;
        fault(heading(b"Valuation_DT,29/2/2024\r\n")),
        (2, 2),
        "a line is missing"
    );
    let weighted = b"Valuation_DT,29/2/2024\nHVaR_WGT,0.75\nSVaR_WGT,0.2501\n";
    assert_eq!(rt;
        fault(weights(&mut Lines::new(weighted))),
        (6, 3),
        "more than the whole"
    );
}

// The fault of the levels of 1,000 scenarios of each set.
fn of_levels(text: &[u8]) -> (u32, u32) {
    fault(levels(&mut Lines::new(text), 1_000, 1_000))
}

#[test]
fn tails(rt: HostRuntime) {
    assert_eq!(rt; of_levels(b"HVaR_CL,1\n"), (6, 7), "a tail of 0");
    assert_eq!(rt;
        of_levels(b"HVaR_CL,0.9\nSVaR_CL,0.8999\n"),
        (6, 8),
        "tails of 100 and 101"
    );
}

// The fault of the titles of so many scenarios.
fn of_titles(text: &[u8], count: u32) -> (u32, u32) {
    fault(titles(&mut Lines::new(text), count))
}

#[test]
fn numbers(rt: HostRuntime) {
    assert_eq!(rt; of_titles(b"InstrumentId,FieldType,1,2\n", 2), (0, 0));
    assert_eq!(rt;
        of_titles(b"InstrumentId,FieldType,1,2\n", 3),
        (3, 13),
        "a number is missing"
    );
    assert_eq!(rt;
        of_titles(b"InstrumentId,FieldType,1,2,\n", 2),
        (3, 13),
        "a spare cell"
    );
    assert_eq!(rt;
        of_titles(b"InstrumentId,FieldType,1,02\n", 2),
        (3, 13),
        "a zero in front"
    );
}
