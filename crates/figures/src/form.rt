// The form of an answer, and a text in the form that is asked for.
ghost use Rattle.figures.specs.Forms.{in_form};

use std::fmt;

// How an answer is printed: for people, or for scripts.
#[derive(Clone, Copy)]
pub enum Form {
    Report,
    Csv,
}

// A text for people and one for scripts, of which the form that is asked for is printed.
#[derive(Clone, Copy, Drop)]
pub struct InForm<R, C> {
    pub form: Form,
    pub report: R,
    pub csv: C,
}

impl<R: fmt::Display, C: fmt::Display> fmt::Display for InForm<R, C> {
    ghost output = { λ x. in_form x.form (R.Display.output x.report) (C.Display.output x.csv) };

    fn fmt<W: fmt::Write>(&self, f: &mut fmt::Formatter<W>) -> fmt::Result {
        match self.form {
            Form::Report => self.report.fmt(f),
            Form::Csv => self.csv.fmt(f),
        }
    }
}
