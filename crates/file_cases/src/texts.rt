// Texts put together from lines, and what the check answers to them.
use parameter_file::{Refusal, examine};
use std::alloc::{AllocError, Global};

// A good heading of two historical and three stress scenarios.
pub(crate) const HEADING: [&str; 13] = [
    "Valuation_DT,2/5/2023",
    "HVaR_WGT,0.75",
    "SVaR_WGT,0.25",
    "HVaR_Scen_Count,2",
    "SVaR_Scen_Count,3",
    "STV_Count,0",
    "HVaR_CL,0.5",
    "SVaR_CL,0.7",
    "HVaR_Measure,4",
    "SVaR_Measure,4",
    "Rounding,100",
    "Holiday_Factor,0.4142135623",
    "InstrumentId,FieldType,1,2,3",
];

pub(crate) fn checked(bytes: &[u8], heap: Global) -> Result<(u32, u32), AllocError> {
    match examine(bytes, heap) {
        Ok(_) => Ok((0, 0)),
        Err(Refusal::Fault(fault)) => Ok((fault.question.number(), fault.line)),
        Err(Refusal::Memory) => Err(AllocError),
    }
}

// The good heading, and these lines after it.
pub(crate) fn with_rows(rows: &str, heap: Global) -> Result<(u32, u32), AllocError> {
    let mut text = Vec::new(heap);
    for line in HEADING.iter() {
        text.extend_from_slice(line.as_bytes())?;
        text.extend_from_slice(b"\n")?;
    }
    text.extend_from_slice(rows.as_bytes())?;
    checked(text.as_slice(), heap)
}

// The good heading with another text in the place of one line.
pub(crate) fn with_line(number: usize, line: &str, heap: Global) -> Result<(u32, u32), AllocError> {
    let mut text = Vec::new(heap);
    for (i, usual) in HEADING.iter().enumerate() {
        if i + 1 == number {
            text.extend_from_slice(line.as_bytes())?;
        } else {
            text.extend_from_slice(usual.as_bytes())?;
        }
        text.extend_from_slice(b"\n")?;
    }
    checked(text.as_slice(), heap)
}
