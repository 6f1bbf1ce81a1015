// The words of a parameter file's text: the questions put to it, what a number may be, and dates.

// The questions put to a parameter file, in the order in which they are asked.
#[derive(Clone, Copy, PartialEq, Eq, PartialOrd, Ord)]
pub enum Question {
    Length,
    Presence,
    Name,
    Cells,
    Form,
    Range,
    First,
    Tier,
}

// How many digits after the point a value may use.
#[derive(Clone, Copy, PartialEq, Eq)]
pub enum Places {
    Four,
    Eight,
    Ten,
}

// Whether a minus stands in front of a number.
#[derive(Clone, Copy, PartialEq, Eq)]
pub enum Sign {
    Plus,
    Minus,
}

// What a decimal may be: its places, and its least and greatest value in units of the last place.
#[derive(Clone, Copy, PartialEq, Eq)]
pub struct DecimalRule {
    pub places: Places,
    pub low: i64,
    pub high: i64,
}

// What an integer may be: its least and greatest value.
#[derive(Clone, Copy, PartialEq, Eq)]
pub struct IntegerRule {
    pub low: u32,
    pub high: u32,
}

// A day of the calendar.
#[derive(Clone, Copy, PartialEq, Eq)]
pub struct Date {
    pub day: u32,
    pub month: u32,
    pub year: u32,
}
