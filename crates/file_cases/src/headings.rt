// Lines 1 to 13.
use super::texts::with_line;
use std::test::Fail;

// A line in the place of one of the good heading, and the question that it fails.
const LINES: [(usize, &str, u32); 62] = [
    (1, "Valuation_DT,29/2/2024", 0),
    (1, "Valuation_DT,29/2/2023", 6),
    (1, "Valuation_DT,1/1/2000", 0),
    (1, "Valuation_DT,31/12/2099", 0),
    (1, "Valuation_DT,31/12/1999", 6),
    (1, "Valuation_DT,1/1/2100", 6),
    (1, "Valuation_DT,31/4/2023", 6),
    (1, "Valuation_DT,0/5/2023", 6),
    (1, "Valuation_DT,02/05/2023", 0),
    (1, "Valuation_DT,002/5/2023", 5),
    (1, "Valuation_DT,2/5/23", 5),
    (1, "Valuation_DT,2-5-2023", 5),
    (1, "Valuation_DT,2/5/2023/", 5),
    (1, "Valuation_dt,2/5/2023", 3),
    (1, "Valuation_DT", 4),
    (1, "Valuation_DT,", 5),
    (1, "Valuation_DT,2/5/2023,", 4),
    (1, "", 3),
    (2, "HVaR_WGT,0.75000", 0),
    (2, "HVaR_WGT,0.75001", 6),
    (2, "HVaR_WGT,1.0001", 6),
    (2, "HVaR_WGT,-0.75", 6),
    (2, "HVaR_WGT,.75", 5),
    (2, "HVaR_WGT,0.", 5),
    (2, "HVaR_WGT,00000.75", 5),
    (2, "HVaR_WGT,0.75000000000", 5),
    (3, "SVaR_WGT,0.2501", 6),
    (3, "SVaR_WGT,0.2499", 6),
    (3, "SVaR_WGT,0000.2500", 0),
    (4, "HVaR_Scen_Count,0", 6),
    (4, "HVaR_Scen_Count,4001", 6),
    (4, "HVaR_Scen_Count,2.0", 5),
    (4, "HVaR_Scen_Count,000000002", 0),
    (4, "HVaR_Scen_Count,0000000002", 5),
    (5, "SVaR_Scen_Count,-3", 5),
    (6, "STV_Count,100000", 0),
    (6, "STV_Count,100001", 6),
    (7, "HVaR_CL,0", 0),
    (7, "HVaR_CL,1", 6),
    (7, "HVaR_CL,0.9999", 0),
    (7, "HVaR_CL,1.0001", 6),
    (8, "SVaR_CL,-0", 0),
    (8, "SVaR_CL,-0.1", 6),
    (9, "HVaR_Measure,3", 6),
    (9, "HVaR_Measure,5", 6),
    (9, "HVaR_Measure,04", 0),
    (9, "HVaR_Measure,4.0", 5),
    (10, "SVaR_Measure,5", 6),
    (11, "Rounding,0", 6),
    (11, "Rounding,1", 0),
    (11, "Rounding,1000000", 0),
    (11, "Rounding,1000001", 6),
    (12, "Holiday_Factor,1", 0),
    (12, "Holiday_Factor,0", 0),
    (12, "Holiday_Factor,1.0000000001", 6),
    (12, "Holiday_Factor,0.0000000001", 0),
    (13, "InstrumentId,FieldType,1,2", 3),
    (13, "InstrumentId,FieldType,1,2,3,", 3),
    (13, "InstrumentId,FieldType,1,2,03", 3),
    (13, "InstrumentId,FieldType,1,2,3,4", 3),
    (13, "instrumentId,FieldType,1,2,3", 3),
    (13, "", 3),
];

#[test]
fn each_line(rt: HostRuntime) -> Result<(), Fail> {
    for (number, line, question) in LINES.iter() {
        let (asked, at) = with_line(*number, line, rt.alloc())?;
        assert_eq!(rt; asked, *question, "{}", line);
        if asked != 0 {
            assert_eq!(rt; at as usize, *number, "{}", line);
        }
    }
    Ok(())
}
