// From bytes to a checked file: memory, a file received, its check, and the file checked.
ghost use Rattle.std.specs.Prelude.{◌≡◌, ◌+◌, ◌/◌, ◌≤◌, min, true, length, is_some, is_ok, vec_capacity, IfOk, Ok, Err, MatchResult};
ghost use Rattle.parameter_heading.specs.Laid.{TailFigures};
ghost use Rattle.file_rules.specs.Judged.{most_bytes, stock_places, verdict};
ghost use Rattle.file_rules.specs.Laid.{FilesPass};
ghost use Rattle.parameter_file.specs.Checked.{check_answer, file_of};

use super::file::{CheckedFile, Memory, Received};
use super::judging::MOST_BYTES;
use super::reading::STOCK_PLACES;
use parameter_heading::Fault;
use std::alloc::{AllocError, Global};

// The most returns in a row.
const MOST_SCENARIOS: usize = 4_000;

impl Memory {
    // Memory for a file of some length, at most twice its size beside a table of the stocks; or want of memory. A file that
    // is too long is refused by its length alone.
    pub fn for_file(length: usize, heap: Global) -> Result<Memory, AllocError>
        ensures length { IfOk result (λ m. m.length ≡ min length most_bytes) }
        ensures kept { IfOk result (λ m. vec_capacity m.kept ≡ m.length / 2 + 4001) }
        ensures table { IfOk result (λ m. vec_capacity m.table ≡ stock_places) }
    {
        let length = length.min(MOST_BYTES);
        let kept = Vec::with_capacity(heap, length / 2 + MOST_SCENARIOS + 1)?;
        let table = Vec::with_capacity(heap, STOCK_PLACES)?;
        Ok(Memory {
            length,
            kept,
            table,
        })
    }
}

impl<'a> Received<'a> {
    // A file as it was received, with memory for one of its length.
    pub fn new(text: &'a [u8], memory: Memory) -> Received<'a>
        requires { min (length text.now) most_bytes ≤ memory.length }
        ensures bytes { result.bytes.now ≡ text.now }
    {
        Received {
            bytes: text,
            memory,
            found: None,
        }
    }

    // Does the file pass, and if not, which is its first fault?
    pub fn check(&mut self) -> Result<(), Fault>
        ensures answer { result ≡ check_answer (verdict self.old.bytes.now) }
        ensures fault { MatchResult result (λ _. is_ok (verdict self.old.bytes.now) ≡ true) (λ e. verdict self.old.bytes.now ≡ Err e) }
        ensures found { is_some self.new.found ≡ is_ok result }
        ensures bytes { self.new.bytes.now ≡ self.old.bytes.now }
        ensures law { FilesPass }
        ensures figures { TailFigures }
    {
        self.found = None;
        let bytes = self.bytes;
        let heading = self.memory.judge(bytes)?;
        self.found = Some(heading);
        Ok(())
    }

    // The checked file, once the check has passed.
    pub fn checked(self) -> CheckedFile<'a>
        requires { is_some self.found ≡ true }
        ensures bytes { result.bytes.now ≡ self.entry.bytes.now }
        ensures meaning { verdict self.entry.bytes.now ≡ Ok (file_of self.entry.bytes.now result.heading) }
    {
        let Received {
            bytes,
            memory,
            found,
        } = self;
        CheckedFile {
            bytes,
            heading: found.unwrap(),
            memory,
        }
    }
}
