//! Lines and columns.
ghost use Rattle.std.specs.Prelude.{◌≡◌, ◌+◌, ◌≤◌, take, length, slice_range};
ghost use Rattle.std.specs.List.{count_by};
ghost use Rattle.ps_places.specs.declared.places.Place.{Place as PlaceView};
ghost use Rattle.ps_places.specs.Places.{BeginsLine, EndsLine, IsPlace, is_line_feed};

/// Where a byte of a text stands. Lines end at an LF alone.
#[derive(Clone, Copy, PartialEq, Eq, Debug)]
pub struct Place {
    /// The line's number, counted from 1.
    pub line: usize,
    /// The byte's number in its line, counted from 1.
    pub column: usize,
    /// Where the line begins.
    pub from: usize,
    /// Where the line ends: the place of its LF, or the text's length.
    pub to: usize,
}

/// How many LFs stand before a place.
fn line_feeds(text: &[u8], at: usize) -> usize
    requires { at ≤ length text.now }
    ensures count { result ≡ count_by is_line_feed (take at text.now) }
    ensures few { result ≤ at }
{
    let mut count = 0;
    for i in 0..at {
        if text[i] == b'\n' {
            count += 1;
        }
    }
    count
}

/// Where the line of a byte begins.
fn line_begin(text: &[u8], at: usize) -> usize
    requires { at ≤ length text.now }
    ensures { BeginsLine text.now at result }
{
    let mut from = at;
    while from > 0 && text[from - 1] != b'\n' {
        from -= 1;
    }
    from
}

/// Where the line of a byte ends.
fn line_end(text: &[u8], at: usize) -> usize
    requires { at ≤ length text.now }
    ensures { EndsLine text.now at result }
{
    let mut to = at;
    while to < text.len() && text[to] != b'\n' {
        to += 1;
    }
    to
}

/// The place of a byte of a text, counted from 0. The text's length is a place too, at which the text ends. A place past it counts as that.
pub fn place_of(text: &[u8], at: usize) -> Place
    ensures { IsPlace text.now at result }
{
    let at = at.min(text.len());
    let from = line_begin(text, at);
    Place {
        line: line_feeds(text, at) + 1,
        column: at - from + 1,
        from,
        to: line_end(text, at),
    }
}

/// The line of a byte of a text, without the LF that ends it.
pub fn line_of(text: &[u8], at: usize) -> &[u8]
    ensures { (p : PlaceView) × IsPlace text.now at p
        × (result.now ≡ slice_range text.now p.from p.to) }
{
    let place = place_of(text, at);
    &text[place.from..place.to]
}
