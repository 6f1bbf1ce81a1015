// The names of the journals on the command line.
ghost use Rattle.std.specs.Prelude.{◌≡◌};
ghost use Rattle.std.specs.Iterator.{YieldsFirstBy, item_count};
ghost use Rattle.margin_desk.specs.Items.{items_left, journals_in, journals_left};

use super::kinds::Kind;
use command_line::Items;

// The names of the journals that are still to come.
#[derive(Clone, Copy)]
pub struct Journals<'a> {
    left: Items<'a, Kind>,
}

impl<'a> Journals<'a> {
    // The names of all journals on the command line.
    pub(crate) fn new(items: Items<'a, Kind>) -> Journals<'a>
        ensures { journals_left result ≡ journals_in (items_left items.entry) }
    {
        Journals { left: items }
    }
}

impl<'a> Iterator for Journals<'a> {
    type Item = &'a str;

    ghost next_gives = { YieldsFirstBy (λ name. name.now) journals_left };

    ghost remaining = { item_count journals_left };

    fn next(&mut self) -> Option<&'a str> {
        self.left.next_of(Kind::Journal)
    }
}
