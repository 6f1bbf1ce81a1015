// The words behind `check_file`: a file, and the options `--csv` and `--help`.
ghost use Rattle.std.specs.Prelude.{◌≡◌, Some, None, refl};
ghost use Rattle.desk.specs.declared.arguments.UsageError.TheVariants as UsageError;
ghost use Rattle.command_line.specs.Items.{items_left};
ghost use Rattle.desk.specs.Arguments.{kind_of, texts, told, request_of, request_of_items, usage_text};

use command_line::{Items, OptionFault, WordKind};
use figures::Form;
use std::fmt;

// What the program is asked to do.
#[derive(Clone, Copy)]
pub enum Request<'a> {
    Help,
    Check { form: Form, path: &'a str },
}

// Why the words make no request; a word that begins with a dash is an option.
#[derive(Clone, Copy)]
pub enum UsageError<'a> {
    Options(OptionFault<'a>),
    TwoFiles,
    NoFile,
}

impl<'a> From<OptionFault<'a>> for UsageError<'a> {
    ghost from_gives = { λ fault e. e ≡ UsageError.Options fault };

    fn from(fault: OptionFault<'a>) -> UsageError<'a> {
        UsageError::Options(fault)
    }
}

impl fmt::Display for UsageError<'_> {
    ghost output = { λ e. Some (usage_text e) };

    fn fmt<W: fmt::Write>(&self, f: &mut fmt::Formatter<W>) -> fmt::Result {
        match self {
            UsageError::Options(fault) => write!(f, "{fault}"),
            UsageError::TwoFiles => write!(f, "more than one file is given"),
            UsageError::NoFile => write!(f, "no file is given"),
        }
    }
}

// What one word of the command line is.
#[derive(Clone, Copy, PartialEq, Eq)]
enum Kind {
    Csv,
    Help,
    Unknown,
    File,
}

impl WordKind for Kind {
    ghost kind_of = { kind_of };

    ghost lacking = { λ _. None };

    ghost same = { ⟦<Kind as PartialEq>⟧.eq };

    ghost same_is_eq = { λ k j. refl };

    fn of(word: &str) -> Kind {
        match word {
            "--csv" => Kind::Csv,
            "--help" => Kind::Help,
            _ if word.starts_with('-') => Kind::Unknown,
            _ => Kind::File,
        }
    }

    // No value stands behind an option.
    fn lacking(self) -> Option<Kind> {
        None
    }
}

impl<'a> Request<'a> {
    // What the words ask for; options may stand anywhere. Of several faults the error names the first of its cases.
    #[tactic(auto, using(crate::proofs::WordLaws::request_from_items))]
    pub fn from_words(words: &'a [String]) -> Result<Request<'a>, UsageError<'a>>
        ensures { told result ≡ request_of (texts words.now) }
    {
        Request::from_items(Items::new(words))
    }

    fn from_items(items: Items<'a, Kind>) -> Result<Request<'a>, UsageError<'a>>
        ensures { told result ≡ request_of_items (items_left kind_of (λ _. None) items.entry) }
    {
        items.known(Kind::Unknown)?;
        items.once(Kind::Csv, "--csv")?;
        items.once(Kind::Help, "--help")?;
        let csv = items.count_of(Kind::Csv);
        let help = items.count_of(Kind::Help);
        if items.count_of(Kind::File) > 1 {
            return Err(UsageError::TwoFiles);
        }
        if help == 1 {
            return Ok(Request::Help);
        }
        let form = if csv == 1 { Form::Csv } else { Form::Report };
        let path = items.first_of(Kind::File).ok_or(UsageError::NoFile)?;
        Ok(Request::Check { form, path })
    }
}
