// Text both ways: numbers in decimal and byte strings written into a lent buffer, and numbers read from fields.
#![tactic(auto)]

ghost use Rattle.std.specs.Prelude.{◌≡◌, ◌++◌, ◌+◌, ◌<◌, ◌≤◌, length};
ghost use Rattle.laws.specs.Stores.{Stored};
ghost use Rattle.text.specs.Number.{most_number, most_digits, decimal};
ghost use Rattle.text.specs.Fields.{DigitsTell, Tells};

const LARGEST_NUMBER: usize = 65535;

// How many digits a number has.
pub fn digit_count(k: u16) -> usize
    ensures { (result ≡ length (decimal k)) × (result ≤ most_digits) }
{
    match k {
        0..=9 => 1,
        10..=99 => 2,
        100..=999 => 3,
        1000..=9999 => 4,
        _ => 5,
    }
}

// A number in decimal, from its last digit on. (Of one digit there is nothing to divide.)
pub fn put_number(out: &mut [u8], at: usize, k: u16) -> usize
    requires { at + length (decimal k) ≤ length out.old }
    ensures { Stored out.old at (decimal k) out.new result }
{
    let end = at + digit_count(k);
    // Kept: `as`, since a digit fits, and TryFrom is for what may not fit.
    let mut left = k;
    for p in (at + 1..end).rev() {
        out[p] = b'0' + (left % 10) as u8;
        left /= 10;
    }
    out[at] = b'0' + left as u8;
    end
}

// A fixed byte string.
pub fn put_words(out: &mut [u8], at: usize, words: &[u8]) -> usize
    requires { at + length words.now ≤ length out.old }
    ensures { Stored out.old at words.now out.new result }
{
    let end = at + words.len();
    out[at..end].copy_from_slice(words);
    end
}

// A letter and a number.
pub fn put_field(out: &mut [u8], at: usize, head: &[u8], k: u16) -> usize
    requires { at + length (head.now ++ decimal k) ≤ length out.old }
    ensures { Stored out.old at (head.now ++ decimal k) out.new result }
{
    let p = put_words(out, at, head);
    put_number(out, p, k)
}

// A number that was read, and where it ends.
#[derive(Clone, Copy, Debug, PartialEq, Eq)]
pub struct Field {
    pub value: usize,
    pub end: usize,
}

// The digits from a place on, after those that made first.
fn digits(s: &[u8], from: usize, first: usize) -> Option<Field>
    requires { (from ≤ length s.now) × (first ≤ most_number) }
    ensures { DigitsTell s.now from first result }
{
    let mut value = first;
    for end in from..s.len() {
        let b = s[end];
        if !b.is_ascii_digit() {
            return Some(Field { value, end });
        }
        value = 10 * value + usize::from(b - b'0');
        if LARGEST_NUMBER < value {
            return None;
        }
    }
    Some(Field {
        value,
        end: s.len(),
    })
}

// A space and a number, from a place on.
pub fn next_field(s: &[u8], at: usize) -> Option<Field>
    ensures { Tells s.now at result }
{
    if *s.get(at)? != b' ' {
        return None;
    }
    match *s.get(at + 1)? {
        b'0' => Some(Field {
            value: 0,
            end: at + 2,
        }),
        b @ b'1'..=b'9' => digits(s, at + 2, usize::from(b - b'0')),
        _ => None,
    }
}
