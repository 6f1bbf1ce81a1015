// The words of settings files and journals.
use ledger::Posting;

// The first line of a file that does not have its form; lines are counted from 1.
#[derive(Clone, Copy)]
pub struct FormFault {
    pub line: usize,
}

// One call upon an account, as a journal's line writes it.
#[derive(Clone, Copy)]
pub enum JournalCall {
    Post(Posting),
    Cancel { number: u32 },
}
