// The numbers of the questions, and which comes first.
ghost use Rattle.std.specs.Prelude.{◌≡◌};
ghost use Rattle.parameter_text.specs.Questions.{question_number, sooner as sooner_of};

use super::terms::Question;

impl Question {
    // The number that a refusal carries.
    pub fn number(self) -> u32
        ensures { result ≡ question_number self }
    {
        match self {
            Question::Length => 1,
            Question::Presence => 2,
            Question::Name => 3,
            Question::Cells => 4,
            Question::Form => 5,
            Question::Range => 6,
            Question::First => 7,
            Question::Tier => 8,
        }
    }

    // The one of two questions that is asked first.
    pub fn sooner(self, other: Question) -> Question
        ensures { result ≡ sooner_of self other }
    {
        self.min(other)
    }
}
