// The kinds of word on the command line.

// What a word of the command line is: an option, an option that lacks its value, a word with a dash that is no option, or the
// name of a journal.
#[derive(Clone, Copy, PartialEq, Eq)]
pub(crate) enum Kind {
    Csv,
    Trace,
    Help,
    Rpf,
    Fallback,
    Settings,
    Places,
    Holdings,
    Lacking,
    Unknown,
    Journal,
}
