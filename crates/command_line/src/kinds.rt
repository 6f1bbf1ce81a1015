// What the words of a program's command line are.
ghost use Rattle.std.specs.Prelude.{◌≡◌, Bool, List, ℕ, Option};

// The kinds of word that a program knows, its options among them.
pub trait WordKind: Copy + PartialEq {
    // What a word is, where it is not the value of an option.
    ghost kind_of: { List ℕ → Self };

    // Where a value stands behind an option of this kind, what the option is as the last word.
    ghost lacking: { Self → Option Self };

    // Are two kinds one?
    ghost same: { Self → Self → Bool };

    fn of(word: &str) -> Self
        ensures { result ≡ kind_of word.now };

    fn lacking(self) -> Option<Self>
        ensures { result ≡ lacking self };

    ghost same_is_eq: { (k j : Self) → Self.eq k j ≡ same k j };
}
