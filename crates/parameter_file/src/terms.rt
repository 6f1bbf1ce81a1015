// The words of a parameter file's rows.
ghost use Rattle.std.specs.Prelude.{◌≡◌};
ghost use Rattle.parameter_file.specs.declared.terms.Refusal.TheVariants as refusal;

use file_rules::FieldType;
use parameter_heading::{Fault, Heading};
use return_source::{Entitlement, EntitlementType, ScenarioSet};
use std::alloc::AllocError;

// What a row was found to hold; its returns are kept aside.
#[derive(Clone, Copy)]
pub enum Found {
    Returns(ScenarioSet),
    Rate(u32),
    Right(EntitlementType, Entitlement),
    Unread,
}

// The head of a row: its stock, its kind, and where its third cell starts. A row of two cells has no third.
#[derive(Clone, Copy)]
pub struct RowHead {
    pub stock: u32,
    pub kind: FieldType,
    pub cells: Option<usize>,
}

// What the cells after a row's head were found to hold, and where the next line starts.
#[derive(Clone, Copy)]
pub struct FoundCells {
    pub found: Found,
    pub next: usize,
}

// What a row was found to hold, and where the next line starts.
#[derive(Clone, Copy)]
pub struct FoundRow {
    pub stock: u32,
    pub found: Found,
    pub next: usize,
}

// What a file says of one stock: where its returns are kept, its flat rate, its entitlements, and the line of its first
// row of returns or rate.
#[derive(Clone, Copy, Default)]
pub struct StockRows {
    pub historical: Option<usize>,
    pub stress: Option<usize>,
    pub rate: Option<u32>,
    pub dsp: Option<Entitlement>,
    pub sri: Option<Entitlement>,
    pub div: Option<Entitlement>,
    pub line: Option<u32>,
}

// What a checked file holds, in numbers.
#[derive(Clone, Copy)]
pub struct Summary {
    pub heading: Heading,
    pub portfolio_stocks: u32,
    pub flat_stocks: u32,
    pub entitlements: u32,
}

// Why a file was not checked through: a fault of the file, or want of memory.
#[derive(Clone, Copy)]
pub enum Refusal {
    Fault(Fault),
    Memory,
}

impl From<Fault> for Refusal {
    ghost from_gives = { λ f r. r ≡ refusal.Fault f };

    fn from(fault: Fault) -> Refusal {
        Refusal::Fault(fault)
    }
}

impl From<AllocError> for Refusal {
    ghost from_gives = { λ _ r. r ≡ refusal.Memory };

    fn from(_error: AllocError) -> Refusal {
        Refusal::Memory
    }
}
