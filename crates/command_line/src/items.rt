// The command line taken item by item.
ghost use Rattle.std.specs.Prelude.{◌≡◌, length, option_map};
ghost use Rattle.std.specs.Result.{result_map_both};
ghost use Rattle.std.specs.Iterator.{YieldsFirstBy, item_count};
ghost use Rattle.command_line.specs.Items.{texts, seen, words_left, items_left, of_kind, texts_of, first_of};
ghost use Rattle.command_line.specs.Faults.{fault, known, once};

use super::faults::OptionFault;
use super::kinds::WordKind;
use std::marker::PhantomData;

// A word and what it is; of an option with a value, the value.
#[derive(Clone, Copy)]
pub struct Item<'a, K> {
    pub kind: K,
    pub text: &'a str,
}

impl<K: WordKind> Item<'_, K> {
    fn is_of(&self, kind: K) -> bool
        ensures { result ≡ K.same self.now.kind kind }
    {
        self.kind == kind
    }
}

// The items that are still to come.
#[derive(Clone, Copy)]
pub struct Items<'a, K> {
    words: &'a [String],
    kinds: PhantomData<K>,
}

impl<'a, K: WordKind> Items<'a, K> {
    // The items of a whole command line.
    pub fn new(words: &'a [String]) -> Items<'a, K>
        ensures { words_left result ≡ texts words.now }
    {
        Items {
            words,
            kinds: PhantomData,
        }
    }

    // The next word.
    fn next_word(&mut self) -> Option<&'a str>
        ensures { YieldsFirstBy (λ word. word.now) words_left self.old result self.new }
    {
        let (word, others) = self.words.split_first()?;
        self.words = others;
        Some(word.as_str())
    }

    // How many items are of a kind.
    pub fn count_of(self, kind: K) -> usize
        ensures { result ≡ length (of_kind K.same kind (items_left K.kind_of K.lacking self.entry)) }
    {
        self.filter(|item| item.is_of(kind)).count()
    }

    fn find_of(&mut self, kind: K) -> Option<Item<'a, K>>
        ensures item { YieldsFirstBy seen (λ s. of_kind K.same kind (items_left K.kind_of K.lacking s)) self.old result self.new }
        ensures text { option_map (λ item. item.text.now) result ≡ first_of (of_kind K.same kind (items_left K.kind_of K.lacking self.old)) }
    {
        self.find(|item| item.is_of(kind))
    }

    // The text of the next item of a kind, or none where all were given; from then on there is none.
    #[tactic(auto, using(crate::proofs::ItemLaws::next_text))]
    pub fn next_of(&mut self, kind: K) -> Option<&'a str>
        ensures text { YieldsFirstBy (λ text. text.now) (λ s. texts_of K.same kind (items_left K.kind_of K.lacking s)) self.old result self.new }
        ensures first { option_map (λ text. text.now) result ≡ first_of (of_kind K.same kind (items_left K.kind_of K.lacking self.old)) }
    {
        self.find_of(kind).map(|item| item.text)
    }

    // The text of the first item of a kind.
    pub fn first_of(mut self, kind: K) -> Option<&'a str>
        ensures { option_map (λ x. x.now) result ≡ first_of (of_kind K.same kind (items_left K.kind_of K.lacking self.entry)) }
    {
        self.next_of(kind)
    }

    // No item is of the kind of the unknown options.
    pub fn known(self, unknown: K) -> Result<(), OptionFault<'a>>
        ensures { result_map_both (λ u. u) fault result ≡ known K.same unknown (items_left K.kind_of K.lacking self.entry) }
    {
        match self.first_of(unknown) {
            Some(option) => Err(OptionFault::Unknown(option)),
            None => Ok(()),
        }
    }

    // An option is given once at most.
    pub fn once(self, kind: K, name: &'a str) -> Result<(), OptionFault<'a>>
        ensures { result_map_both (λ u. u) fault result ≡ once K.same kind name.now (items_left K.kind_of K.lacking self.entry) }
    {
        if self.count_of(kind) > 1 {
            return Err(OptionFault::Twice(name));
        }
        Ok(())
    }
}

impl<'a, K: WordKind> Iterator for Items<'a, K> {
    type Item = Item<'a, K>;

    ghost next_gives = { YieldsFirstBy seen (items_left K.kind_of K.lacking) };

    ghost remaining = { item_count (λ s. words_left s) };

    fn next(&mut self) -> Option<Item<'a, K>> {
        let word = self.next_word()?;
        let kind = K::of(word);
        let Some(lacking) = kind.lacking() else {
            return Some(Item { kind, text: word });
        };
        match self.next_word() {
            Some(value) => Some(Item { kind, text: value }),
            None => Some(Item {
                kind: lacking,
                text: word,
            }),
        }
    }
}
