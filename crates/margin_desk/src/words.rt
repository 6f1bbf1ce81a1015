// The words of the command line, and what is wrong with them.
ghost use Rattle.std.specs.Prelude.{◌≡◌, Some};
ghost use Rattle.margin_desk.specs.declared.words.UsageError.TheVariants as UsageError;
ghost use Rattle.margin_desk.specs.Words.{kind_of, lacking, same_kind};
ghost use Rattle.margin_desk.specs.KindLaws.{same_kind_is_eq};
ghost use Rattle.margin_desk.specs.Usage.{usage_text};

use super::kinds::Kind;
use command_line::{OptionFault, WordKind};
use std::fmt;

impl WordKind for Kind {
    ghost kind_of = { kind_of };

    ghost lacking = { lacking };

    ghost same = { same_kind };

    ghost same_is_eq = { same_kind_is_eq };

    #[tactic(auto, unfolding(crate::specs::Words::kind_of, crate::specs::Words::flag_of, crate::specs::Words::option_of))]
    fn of(word: &str) -> Kind {
        match word {
            "--csv" => Kind::Csv,
            "--trace" => Kind::Trace,
            "--help" => Kind::Help,
            "--rpf" => Kind::Rpf,
            "--fallback" => Kind::Fallback,
            "--settings" => Kind::Settings,
            "--places" => Kind::Places,
            "--holdings" => Kind::Holdings,
            _ if word.starts_with('-') => Kind::Unknown,
            _ => Kind::Journal,
        }
    }

    fn lacking(self) -> Option<Kind> {
        match self {
            Kind::Rpf | Kind::Fallback | Kind::Settings | Kind::Places | Kind::Holdings => {
                Some(Kind::Lacking)
            }
            _ => None,
        }
    }
}

// Why the words make no request.
#[derive(Clone, Copy)]
pub enum UsageError<'a> {
    Options(OptionFault<'a>),
    NoValue(&'a str),
    TwoSources,
    NoSource,
    NoSettings,
    NoJournal,
    NoRate(&'a str),
    NoPlaces(&'a str),
    NoHoldings(&'a str),
}

impl<'a> From<OptionFault<'a>> for UsageError<'a> {
    ghost from_gives = { λ fault e. e ≡ UsageError.Options fault };

    fn from(fault: OptionFault<'a>) -> UsageError<'a> {
        UsageError::Options(fault)
    }
}

impl fmt::Display for UsageError<'_> {
    ghost output = { λ e. Some (usage_text e) };

    fn fmt<W: fmt::Write>(&self, f: &mut fmt::Formatter<W>) -> fmt::Result {
        match self {
            UsageError::Options(fault) => write!(f, "{fault}"),
            UsageError::NoValue(option) => write!(f, "{option} has no value"),
            UsageError::TwoSources => write!(f, "--rpf and --fallback are both given"),
            UsageError::NoSource => write!(f, "neither --rpf nor --fallback is given"),
            UsageError::NoSettings => write!(f, "--settings is not given"),
            UsageError::NoJournal => write!(f, "no journal is given"),
            UsageError::NoRate(text) => {
                write!(
                    f,
                    "--fallback takes a decimal of at most four places, not {text}"
                )
            }
            UsageError::NoPlaces(text) => write!(f, "--places takes digits, not {text}"),
            UsageError::NoHoldings(text) => write!(f, "--holdings takes digits, not {text}"),
        }
    }
}
