// Document 01, "Schedule text": the lines of a schedule, and what a line says.
#![tactic(auto)]

ghost use Rattle.std.specs.Prelude.{◌≡◌, ◌<◌, ◌≤◌, length};
ghost use Rattle.text.specs.Fields.{fields_at};
ghost use Rattle.schedule.specs.Lines.{line_at, place_in};
ghost use Rattle.schedule.specs.Grammar.{most_bytes, line_of, one_or_more};
ghost use Rattle.schedule.specs.LineValue.{SaidBy};
ghost use Rattle.schedule.specs.Mirror.Forms.{exactly, say_at, travels, ToldLine};
ghost use Rattle.schedule.specs.Link.TripCells.{CellsTell};

const LONGEST_LINE: usize = 128;

// The cells of a trip that a line can hold, and more.
pub const LIST: usize = 64;

// The bytes from a place up to the next LF, or to the end.
pub fn line_at(s: &[u8], at: usize) -> &[u8]
    ensures bytes { result.now ≡ line_at s.now at }
    ensures place { result.ref_ptr ≡ place_in s.entry at }
{
    let rest = &s[at.min(s.len())..];
    let len = rest.iter().position(|b| *b == b'\n').unwrap_or(rest.len());
    &rest[..len]
}

// What a line says. The cells of a trip stand in an array beside; here is how many.
#[derive(Clone, Copy, Debug, PartialEq, Eq)]
pub enum Line {
    New(usize, usize),
    Read(usize, usize),
    Write(usize, usize, usize),
    Deliver(usize, usize, usize),
    Trip(usize, usize),
}

// The N numbers behind the letter, where nothing else follows.
fn numbers<const N: usize>(s: &[u8]) -> Option<[usize; N]>
    requires { 0 < length s.now }
    ensures { result ≡ exactly N (fields_at s.now 1) }
{
    let mut numbers = [0; N];
    let mut at = 1;
    for t in 0..N {
        let Some(field) = text::next_field(s, at) else {
            return None;
        };
        numbers[t] = field.value;
        at = field.end;
    }
    if at != s.len() {
        return None;
    }
    Some(numbers)
}

// The cells of a trip, from a place to the end: how many.
fn trip_cells(s: &[u8], from: usize, cells: &mut [u16; LIST]) -> Option<usize>
    requires { length s.now ≤ most_bytes }
    ensures { CellsTell s.now from cells.old result cells.new }
{
    let mut at = from;
    // Kept: the places of the fields lead the loop, so no range counts the cells.
    let mut n = 0;
    while at < s.len() {
        let Some(field) = text::next_field(s, at) else {
            return None;
        };
        // Kept: `as` loses nothing of a field's value (`FieldIs`), and TryFrom is for what may not fit.
        cells[n] = field.value as u16;
        n += 1;
        at = field.end;
    }
    Some(n)
}

// T i x x ..
fn trip(s: &[u8], cells: &mut [u16; LIST]) -> Option<Line>
    requires { length s.now ≤ most_bytes }
    ensures { ToldLine (say_at s.now 1 (one_or_more travels)) result cells.old cells.new }
{
    let Some(desk) = text::next_field(s, 1) else {
        return None;
    };
    let mut found = *cells;
    let Some(count) = trip_cells(s, desk.end, &mut found) else {
        return None;
    };
    *cells = found;
    Some(Line::Trip(desk.value, count))
}

// What a line says, without its LF; none: it is no step.
pub fn line_of(s: &[u8], cells: &mut [u16; LIST]) -> Option<Line>
    ensures { SaidBy (line_of s.now) result cells.old cells.new }
{
    if LONGEST_LINE < s.len() {
        return None;
    }
    match *s.first()? {
        b'N' => {
            let [n, m] = numbers::<2>(s)?;
            Some(Line::New(n, m))
        }
        b'R' => {
            let [i, x] = numbers::<2>(s)?;
            Some(Line::Read(i, x))
        }
        b'W' => {
            let [i, x, v] = numbers::<3>(s)?;
            Some(Line::Write(i, x, v))
        }
        b'D' => {
            let [i, u, k] = numbers::<3>(s)?;
            Some(Line::Deliver(i, u, k))
        }
        b'T' => trip(s, cells),
        _ => None,
    }
}
