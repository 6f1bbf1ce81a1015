// Rows of returns in their usual spelling: perhaps a minus, one digit, and perhaps a point and one to eight digits.
// A row is read in one pass over its line, since the rows are nearly all of a parameter file.
ghost use Rattle.std.specs.Prelude.{◌≡◌, ◌+◌, ◌-◌, ◌<◌, ◌≤◌, [], length, take, drop, IfSome, Ok, OnSome};
ghost use Rattle.parameter_text.specs.Cuts.{cells, line_of, after_line, Starts};
ghost use Rattle.parameter_text.specs.Decimals.{signed};
ghost use Rattle.parameter_rows.specs.Returns.{largest_return, SpellsReturn, returns_cells, ReturnsPass};
ghost use Rattle.parameter_rows.specs.Reading.{Digits, Sized, Ends, Followed};

use super::LARGEST_RETURN;

// How many digits may follow the point.
const PLACES: usize = 8;

// What a number is worth in hundred-millionths, by how many of its digits follow the point: one multiplication for
// each cell, in place of one for each place that is not written.
const UNITS: [u32; 9] = [
    100_000_000,
    10_000_000,
    1_000_000,
    100_000,
    10_000,
    1_000,
    100,
    10,
    1,
];

// The bytes of the longest cell and of the comma after it, as -d.dddddddd and a comma: where so many are left, no
// byte of a cell lies past the end, and none is asked for its place again.
const WINDOW: usize = 12;

// The digits in front, at most eight: the number that they write on from `whole`, and how many they are.
fn digits(text: &[u8], whole: u32) -> (u32, usize)
    requires room { 8 ≤ length text.now }
    requires digit { whole ≤ 9 }
    ensures { Digits text.now whole result.0 result.1 }
{
    let mut n = whole;
    for (k, b) in text[..PLACES].iter().enumerate() {
        if !b.is_ascii_digit() {
            return (n, k);
        }
        n = n * 10 + u32::from(*b - b'0');
    }
    (n, PLACES)
}

// The size in hundred-millionths that is written in front without a sign, and how many bytes write it.
fn size(text: &[u8]) -> Option<(u32, usize)>
    requires { 10 ≤ length text.now }
    ensures found { IfSome result (λ p. Sized (take p.1 text.now) p.0) }
    ensures ends { IfSome result (λ p. (0 < p.1) × (p.1 ≤ 10)) }
{
    let b = text[0];
    if !b.is_ascii_digit() {
        return None;
    }
    let whole = u32::from(b - b'0');
    if text[1] != b'.' {
        return Some((whole * UNITS[0], 1));
    }
    let (n, k) = digits(&text[2..], whole);
    if k == 0 {
        return None;
    }
    Some((n * UNITS[k], 2 + k))
}

// A size with its sign.
// Kept: a flag, for it moves the place as a number too: parameter_text's sign would be made of it and taken apart again at each cell.
fn with_sign(minus: bool, size: u32) -> i32
    requires { size ≤ largest_return }
    ensures { result ≡ signed minus size }
{
    let v = size as i32;
    if minus { -v } else { v }
}

// The return in front, if it has the usual spelling, and how many bytes write it.
// Half of all returns have a minus, and no processor foresees which: it moves the place, and no branch hangs on it.
fn cell(text: &[u8]) -> Option<(i32, usize)>
    ensures found { IfSome result (λ p. SpellsReturn (take p.1 text.now) p.0) }
    ensures within { IfSome result (λ p. p.1 < length text.now) }
{
    if text.len() < WINDOW {
        return None;
    }
    let minus = text[0] == b'-';
    let (n, length) = size(&text[minus as usize..])?;
    if n > LARGEST_RETURN {
        return None;
    }
    Some((with_sign(minus, n), minus as usize + length))
}

// The returns in front, as many as the row has places, each with a comma after it: what follows them.
fn followed_cells<'a>(text: &'a [u8], row: &mut [i32]) -> Option<&'a [u8]>
    ensures { IfSome result (λ rest. Followed text.now rest.now row.new) }
{
    let mut rest = text;
    for value in row.iter_mut() {
        let (v, length) = cell(rest)?;
        if rest[length] != b',' {
            return None;
        }
        *value = v;
        rest = &rest[length + 1..];
    }
    Some(rest)
}

// How long the line's end is that stands in front, if one does: at the text's end it has no byte.
fn end_length(rest: &[u8]) -> Option<usize>
    ensures ends { IfSome result (λ n. Starts rest.now [] (drop n rest.now)) }
    ensures within { IfSome result (λ n. n ≤ length rest.now) }
{
    match rest {
        [] => Some(0),
        [b'\n', ..] => Some(1),
        [b'\r', b'\n', ..] => Some(2),
        _ => None,
    }
}

// What follows the line's end, if nothing but commas stands before that.
fn next_line(rest: &[u8]) -> Option<&[u8]>
    ensures { IfSome result (λ next. Ends rest.now next.now) }
{
    let commas = rest.iter().take_while(|b| **b == b',').count();
    let end = &rest[commas..];
    Some(&end[end_length(end)?..])
}

// A row of returns from the front of `text`, if each has the usual spelling: where the next line starts.
// None says nothing of the line, and leaves some of its returns in the row.
pub(crate) fn usual_row(text: &[u8], row: &mut [i32]) -> Option<usize>
    ensures passes { OnSome result (returns_cells (length row.old) (cells (line_of text.now)) ≡ Ok row.new) }
    ensures next { IfSome result (λ next. (drop next text.now ≡ after_line text.now) × (next ≤ length text.now)) }
    ensures law { ReturnsPass }
{
    let last = row.len().checked_sub(1)?;
    let rest = followed_cells(text, &mut row[..last])?;
    let (v, length) = cell(rest)?;
    row[last] = v;
    let next = next_line(&rest[length..])?;
    Some(text.len() - next.len())
}
