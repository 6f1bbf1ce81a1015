// What the command line asks of the margin call's program.
ghost use Rattle.std.specs.Prelude.{◌≡◌};
ghost use Rattle.std.specs.Result.{result_map_both};
ghost use Rattle.margin_desk.specs.Words.{Text, texts};
ghost use Rattle.margin_desk.specs.Items.{items_left, of_kind, first_of, journals_left};
ghost use Rattle.margin_desk.specs.Requests.{Wrong, wrong, told_source, told_call, told, words_fault, source_of, settings_of, count_or, places_of, holdings_of, some_journals, given, form_of, call_of, request_of};

use super::journals::Journals;
use super::kinds::Kind;
use super::words::UsageError;
use command_line::Items;
use figures::Form;

// How many places the account's table has where nothing else is asked for.
const USUAL_PLACES: usize = 4096;

// How many places the list of holdings has where nothing else is asked for.
const USUAL_HOLDINGS: usize = 10;

// Where the returns and rates come from: a parameter file, or one rate in ten-thousandths.
#[derive(Clone, Copy)]
pub enum Source<'a> {
    File(&'a str),
    Rate(u32),
}

// A margin call as it is asked for: the answer's form, whether the answer to each call of the journals is printed too, where returns and
// rates come from, the settings file, the places of the table and of the list of holdings, and the journals.
#[derive(Clone, Copy)]
pub struct MarginCall<'a> {
    pub form: Form,
    pub trace: bool,
    pub source: Source<'a>,
    pub settings: &'a str,
    pub places: usize,
    pub holdings: usize,
    pub journals: Journals<'a>,
}

// What the program is asked to do.
#[derive(Clone, Copy)]
pub enum Request<'a> {
    Help,
    Call(MarginCall<'a>),
}

// The items of the command line, and what they ask for.
#[derive(Clone, Copy)]
struct CommandLine<'a> {
    items: Items<'a, Kind>,
}

impl<'a> CommandLine<'a> {
    // Each option is one that there is, has its value, and is given once at most.
    #[tactic(auto, unfolding(crate::specs::Requests::words_fault, crate::specs::Requests::unknown_fault, crate::specs::Requests::flags_once, crate::specs::Requests::sources_once, crate::specs::Requests::lists_once, crate::specs::Requests::once))]
    fn check(self) -> Result<(), UsageError<'a>>
        ensures { result_map_both (λ u. u) wrong result ≡ words_fault (items_left self.entry.items) }
    {
        self.items.known(Kind::Unknown)?;
        if let Some(option) = self.items.first_of(Kind::Lacking) {
            return Err(UsageError::NoValue(option));
        }
        self.items.once(Kind::Csv, "--csv")?;
        self.items.once(Kind::Trace, "--trace")?;
        self.items.once(Kind::Help, "--help")?;
        self.items.once(Kind::Rpf, "--rpf")?;
        self.items.once(Kind::Fallback, "--fallback")?;
        self.items.once(Kind::Settings, "--settings")?;
        self.items.once(Kind::Places, "--places")?;
        self.items.once(Kind::Holdings, "--holdings")?;
        Ok(())
    }

    // The one source that is given.
    #[tactic(auto, unfolding(crate::specs::Requests::source_of))]
    fn source(self) -> Result<Source<'a>, UsageError<'a>>
        ensures { result_map_both told_source wrong result ≡ source_of (items_left self.entry.items) }
    {
        match (
            self.items.first_of(Kind::Rpf),
            self.items.first_of(Kind::Fallback),
        ) {
            (Some(path), None) => Ok(Source::File(path)),
            (None, Some(text)) => {
                let rate = margin_files::rate(text.as_bytes()).ok_or(UsageError::NoRate(text))?;
                Ok(Source::Rate(rate))
            }
            (Some(_), Some(_)) => Err(UsageError::TwoSources),
            (None, None) => Err(UsageError::NoSource),
        }
    }

    #[tactic(auto, unfolding(crate::specs::Requests::settings_of))]
    fn settings(self) -> Result<&'a str, UsageError<'a>>
        ensures { result_map_both (λ x. x.now) wrong result ≡ settings_of (items_left self.entry.items) }
    {
        self.items
            .first_of(Kind::Settings)
            .ok_or(UsageError::NoSettings)
    }

    // The count that an option says, or the usual one; of a text that is no count, the text.
    fn count(self, kind: Kind, usual: usize) -> Result<usize, &'a str>
        ensures { (f : Text → Wrong) → result_map_both (λ n. n) (λ text. f text.now) result ≡ count_or usual f (first_of (of_kind kind (items_left self.entry.items))) }
    {
        match self.items.first_of(kind) {
            Some(text) => margin_files::count(text.as_bytes()).ok_or(text),
            None => Ok(usual),
        }
    }

    #[tactic(auto, unfolding(crate::specs::Requests::places_of))]
    fn places(self) -> Result<usize, UsageError<'a>>
        ensures { result_map_both (λ n. n) wrong result ≡ places_of (items_left self.entry.items) }
    {
        self.count(Kind::Places, USUAL_PLACES)
            .map_err(UsageError::NoPlaces)
    }

    #[tactic(auto, unfolding(crate::specs::Requests::holdings_of))]
    fn holdings(self) -> Result<usize, UsageError<'a>>
        ensures { result_map_both (λ n. n) wrong result ≡ holdings_of (items_left self.entry.items) }
    {
        self.count(Kind::Holdings, USUAL_HOLDINGS)
            .map_err(UsageError::NoHoldings)
    }

    // At least one journal is given.
    #[tactic(auto, unfolding(crate::specs::Requests::some_journals))]
    fn journals(self) -> Result<Journals<'a>, UsageError<'a>>
        ensures { result_map_both journals_left wrong result ≡ some_journals (items_left self.entry.items) }
    {
        self.items
            .first_of(Kind::Journal)
            .ok_or(UsageError::NoJournal)?;
        Ok(Journals::new(self.items))
    }

    // Is an option without a value given?
    fn is_given(self, kind: Kind) -> bool
        ensures { result ≡ given kind (items_left self.entry.items) }
    {
        self.items.count_of(kind) == 1
    }

    #[tactic(auto, unfolding(crate::specs::Requests::form_of))]
    fn form(self) -> Form
        ensures { result ≡ form_of (items_left self.entry.items) }
    {
        if self.is_given(Kind::Csv) {
            Form::Csv
        } else {
            Form::Report
        }
    }

    // The margin call that the words ask for.
    #[tactic(auto, unfolding(crate::specs::Requests::call_of))]
    fn call(self) -> Result<MarginCall<'a>, UsageError<'a>>
        ensures { result_map_both told_call wrong result ≡ call_of (items_left self.entry.items) }
    {
        let source = self.source()?;
        let settings = self.settings()?;
        let journals = self.journals()?;
        let places = self.places()?;
        let holdings = self.holdings()?;
        Ok(MarginCall {
            form: self.form(),
            trace: self.is_given(Kind::Trace),
            source,
            settings,
            places,
            holdings,
            journals,
        })
    }
}

impl<'a> Request<'a> {
    // What the words ask for; options may stand anywhere. Of several faults the error names the first of its cases.
    pub fn from_words(words: &'a [String]) -> Result<Request<'a>, UsageError<'a>>
        ensures { result_map_both told wrong result ≡ request_of (texts words.now) }
    {
        let line = CommandLine {
            items: Items::new(words),
        };
        line.check()?;
        if line.is_given(Kind::Help) {
            return Ok(Request::Help);
        }
        Ok(Request::Call(line.call()?))
    }
}
