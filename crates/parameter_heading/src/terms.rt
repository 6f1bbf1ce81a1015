// The words of a parameter file's heading.
use parameter_text::{Date, Question};
use return_source::Parameters;

// Why a parameter file is refused: the first question answered no, and the line it was asked of, 0 for the whole file.
#[derive(Clone, Copy, PartialEq, Eq)]
pub struct Fault {
    pub question: Question,
    pub line: u32,
}

// A confidence level.
#[derive(Clone, Copy, PartialEq, Eq)]
pub struct Level {
    pub ten_thousandths: u32,
}

// What the first twelve lines lay down.
#[derive(Clone, Copy)]
pub struct Heading {
    pub date: Date,
    pub historical_level: Level,
    pub stress_level: Level,
    pub parameters: Parameters,
}

// What the first three lines lay down, the weights in ten-thousandths.
#[derive(Clone, Copy)]
pub(crate) struct Weights {
    pub(crate) date: Date,
    pub(crate) historical: u32,
    pub(crate) stress: u32,
}
