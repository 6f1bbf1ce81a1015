// Lines of a text and cells of a line, one after the other.
ghost use Rattle.std.specs.Prelude.{◌≡◌, ℕ, ◌+◌, ◌<◌, ◌≤◌, not, [], ◌∷◌, length, drop, IfNone, MatchOption, ◌==◌};
ghost use Rattle.std.specs.Option.{option_map};
ghost use Rattle.std.specs.List.{prefix_len};
ghost use Rattle.std.specs.Iterator.{YieldsFirstRef, item_count, MakesProgress};
ghost use Rattle.parameter_text.specs.Cuts.{split, parts_of, cells, empty, all_empty, chomped, line_of, after_line, lines};
ghost use Rattle.parameter_text.specs.Left.{cells_left, lines_left, text_left};

// What stands before the first `b` and what follows it, or none where there is no `b`.
pub(crate) fn cut_at(bytes: &[u8], b: u8) -> Option<(&[u8], &[u8])>
    ensures { MatchOption result (split b bytes.now ≡ bytes.now ∷ []) (λ p. split b bytes.now ≡ p.0.now ∷ split b p.1.now) }
{
    let n = bytes.iter().position(|x| *x == b)?;
    Some((&bytes[..n], &bytes[n + 1..]))
}

fn is_empty(cell: &[u8]) -> bool
    ensures { result ≡ empty cell.now }
{
    cell.is_empty()
}

// The cells of a line that are still to come: none once the last was given.
#[derive(Clone, Copy)]
pub struct Cells<'a> {
    rest: Option<&'a [u8]>,
}

impl<'a> Cells<'a> {
    // All cells of a line.
    pub fn new(line: &'a [u8]) -> Cells<'a>
        ensures { cells_left result ≡ cells line.now }
    {
        Cells { rest: Some(line) }
    }

    // The text of the cells that are still to come, if any is.
    pub fn rest(&self) -> Option<&'a [u8]>
        ensures { cells_left self.now ≡ parts_of 44 (option_map (λ x. x.now) result) }
    {
        let Cells { rest } = *self;
        rest
    }

    // Are all cells that are still to come empty?
    pub fn are_empty(self) -> bool
        ensures { result ≡ all_empty (cells_left self.entry) }
    {
        only_empty(self)
    }
}

fn only_empty(mut cells: Cells<'_>) -> bool
    ensures { result ≡ all_empty (cells_left cells.entry) }
{
    cells.all(is_empty)
}

// Gives the cells one after the other. Once the last was given there is none, and from then on there is none.
impl<'a> Iterator for Cells<'a> {
    type Item = &'a [u8];

    ghost next_gives = { YieldsFirstRef cells_left };

    ghost remaining = { item_count cells_left };

    fn next(&mut self) -> Option<&'a [u8]> {
        let line = self.rest?;
        match cut_at(line, b',') {
            Some((cell, after)) => {
                self.rest = Some(after);
                Some(cell)
            }
            None => {
                self.rest = None;
                Some(line)
            }
        }
    }
}

// A line without the CR that stands before its LF.
fn chomp(line: &[u8]) -> &[u8]
    ensures { result.now ≡ chomped line.now }
{
    match line {
        [front @ .., b'\r'] => front,
        _ => line,
    }
}

// The first line of a text and what follows it, or none where the text is empty.
fn first_line(text: &[u8]) -> Option<(&[u8], &[u8])>
    ensures { MatchOption result (text.now ≡ []) (λ p. (p.0.now ≡ line_of text.now) × (p.1.now ≡ after_line text.now) × (lines text.now ≡ p.0.now ∷ lines p.1.now)) }
{
    if text.is_empty() {
        return None;
    }
    match cut_at(text, b'\n') {
        Some((line, rest)) => Some((chomp(line), rest)),
        None => Some((text, &[])),
    }
}

// The text whose lines are still to come.
#[derive(Clone, Copy)]
pub struct Lines<'a> {
    rest: &'a [u8],
}

impl<'a> Lines<'a> {
    // All lines of a text.
    pub fn new(text: &'a [u8]) -> Lines<'a>
        ensures { text_left result ≡ text.now }
    {
        Lines { rest: text }
    }

    // What no line was taken of yet.
    pub fn rest(&self) -> &'a [u8]
        ensures { result.now ≡ text_left self.now }
    {
        let Lines { rest } = *self;
        rest
    }
}

// Gives the lines one after the other, without their ends. At the end of the text there is none, and from then on.
impl<'a> Iterator for Lines<'a> {
    type Item = &'a [u8];

    ghost next_gives = { YieldsFirstRef lines_left };

    ghost remaining = { item_count lines_left };

    fn next(&mut self) -> Option<&'a [u8]>
        ensures steps { YieldsFirstRef lines_left self.old result self.new }
        ensures goes { MakesProgress (λ _. Unit {0}) (item_count lines_left) self.old result self.new }
        ensures line { MatchOption result (text_left self.old ≡ []) (λ line. (line.now ≡ line_of (text_left self.old)) × (text_left self.new ≡ after_line (text_left self.old))) }
        ensures end { IfNone result (text_left self.new ≡ []) }
    {
        let (line, rest) = first_line(self.rest)?;
        self.rest = rest;
        Some(line)
    }
}

// The first line of a text without its end, and where the next one starts. An empty text is an empty line.
pub fn front_line(text: &[u8]) -> (&[u8], usize)
    ensures line { result.0.now ≡ line_of text.now }
    ensures after { drop result.1 text.now ≡ after_line text.now }
    ensures within { result.1 ≤ length text.now }
{
    let mut lines = Lines::new(text);
    let line = lines.next().unwrap_or(text);
    (line, text.len() - lines.rest().len())
}
