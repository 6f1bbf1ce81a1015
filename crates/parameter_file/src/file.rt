// The states of a parameter file: memory for one, a file received, and a file checked.
ghost use Rattle.std.specs.Prelude.{◌≡◌, ℕ, ◌+◌, ◌*◌, ◌<◌, ◌≤◌, min, true, length, is_some, is_ok, vec_capacity};
ghost use Rattle.file_rules.specs.Judged.{most_bytes, stock_places, verdict};
ghost use Rattle.parameter_file.specs.Checked.{heading_found, heading_in, Indexed};

use super::terms::StockRows;
use parameter_heading::Heading;

// Memory for the check of a file of some length, got before the check, and what the check keeps there: the returns of all
// rows, one after the other, and what is kept of each stock, at the place of its number.
#[derive(Drop)]
pub struct Memory {
    pub(crate) length: usize,
    pub(crate) kept: Vec<i32>,
    pub(crate) table: Vec<StockRows>,
    ghost few: { length ≤ most_bytes },
    ghost room: { length + 8000 ≤ 2 * vec_capacity kept },
    ghost places: { stock_places ≤ vec_capacity table },
}

// A file as it was received: its bytes, of which nothing is known yet, and the memory for its check.
#[derive(Drop)]
pub struct Received<'a> {
    pub(crate) bytes: &'a [u8],
    pub(crate) memory: Memory,
    pub(crate) found: Option<Heading>,
    ghost room: { min (length bytes.now) most_bytes ≤ memory.length },
    ghost heads: { (is_some found ≡ true → found ≡ heading_found (verdict bytes.now)) },
    ghost size: { (is_some found ≡ true → length memory.table.items ≡ stock_places) },
    ghost index: { (is_some found ≡ true → Indexed bytes.now memory.kept.items memory.table.items) },
}

// A file that passed its check.
#[derive(Drop)]
pub struct CheckedFile<'a> {
    pub(crate) bytes: &'a [u8],
    pub(crate) heading: Heading,
    pub(crate) memory: Memory,
    ghost passed: { is_ok (verdict bytes.now) ≡ true },
    ghost heads: { heading ≡ heading_in (verdict bytes.now) heading },
    ghost size: { length memory.table.items ≡ stock_places },
    ghost index: { Indexed bytes.now memory.kept.items memory.table.items },
}
