// The output lines of answers, as bytes (document 01, "Schedule text").
#![tactic(auto)]

ghost use Rattle.std.specs.Prelude.{◌≡◌, ◌+◌, ◌<◌, ◌≤◌, ◌++◌, length};
ghost use Rattle.laws.specs.Stores.{Stored};
ghost use Rattle.machine.specs.Table.{most_open};
ghost use Rattle.machine.specs.Answer.{shows, shown, applies};
ghost use Rattle.reply.specs.Meaning.{name_of, answer_of, names_of};
ghost use Rattle.answer.specs.Bytes.{name_bytes, names_bytes, answer_bytes, answer_line, most_name, most_names, most_answer};
ghost use Rattle.answer.specs.Outcome.{written_of, put_answer, buffer};

use reply::{APPLIED, Answer, Name};

// The most bytes of an answer's line.
pub const LONGEST_ANSWER: usize = 770;

fn name_length(w: Name) -> usize
    ensures { (result ≡ length (name_bytes (name_of w))) × (result ≤ most_name) }
{
    text::digit_count(w.writer) + 1 + text::digit_count(w.number)
}

fn names_length(names: &[Name; APPLIED], count: usize) -> usize
    ensures { (result ≡ length (names_bytes (names_of count names.now))) × (result ≤ most_names) }
{
    let mut sum = 0;
    for w in &names[..count.min(APPLIED)] {
        sum += 1 + name_length(*w);
    }
    sum
}

// How long an answer is without its LF.
fn answer_length(a: Answer, names: &[Name; APPLIED]) -> usize
    ensures { (result ≡ length (answer_bytes (answer_of a names.now))) × (result < most_answer) }
{
    match a {
        Answer::Begun => 1,
        Answer::Unset => 3,
        Answer::Shown(v, w) => 3 + text::digit_count(v) + name_length(w),
        Answer::Wrote(w) | Answer::Held(w) => 2 + name_length(w),
        Answer::Applied(count) => 1 + names_length(names, count),
        Answer::Yes => 5,
        Answer::No => 4,
        Answer::Unknown => 9,
        Answer::Refused(r) => 2 + text::digit_count(u16::from(r)),
    }
}

// The name u.k.
fn put_name(out: &mut [u8], at: usize, w: Name) -> usize
    requires { at + length (name_bytes (name_of w)) ≤ length out.old }
    ensures { Stored out.old at (name_bytes (name_of w)) out.new result }
{
    let p = text::put_number(out, at, w.writer);
    out[p] = b'.';
    text::put_number(out, p + 1, w.number)
}

// The names applied, each after a space.
fn put_names(out: &mut [u8], at: usize, names: &[Name; APPLIED], count: usize) -> usize
    requires { at + length (names_bytes (names_of count names.now)) ≤ length out.old }
    ensures { Stored out.old at (names_bytes (names_of count names.now)) out.new result }
{
    let mut p = at;
    for w in &names[..count.min(APPLIED)] {
        out[p] = b' ';
        p = put_name(out, p + 1, *w);
    }
    p
}

// What a read shows.
fn put_shown(out: &mut [u8], at: usize, v: u16, w: Name) -> usize
    requires { at + length (answer_bytes (shows (shown v w.writer w.number))) ≤ length out.old }
    ensures { Stored out.old at (answer_bytes (shows (shown v w.writer w.number))) out.new result }
{
    let p = text::put_field(out, at, b"R ", v);
    out[p] = b' ';
    put_name(out, p + 1, w)
}

// A letter and a name.
fn put_headed(out: &mut [u8], at: usize, head: &[u8], w: Name) -> usize
    requires { at + length (head.now ++ name_bytes (name_of w)) ≤ length out.old }
    ensures { Stored out.old at (head.now ++ name_bytes (name_of w)) out.new result }
{
    let p = text::put_words(out, at, head);
    put_name(out, p, w)
}

// The names applied.
fn put_applied(out: &mut [u8], at: usize, names: &[Name; APPLIED], count: usize) -> usize
    requires { at + length (answer_bytes (applies (names_of count names.now))) ≤ length out.old }
    ensures { Stored out.old at (answer_bytes (applies (names_of count names.now))) out.new result }
{
    let p = text::put_words(out, at, b"A");
    put_names(out, p, names, count)
}

// An answer without its LF.
fn put_answer(out: &mut [u8], at: usize, a: Answer, names: &[Name; APPLIED]) -> usize
    requires { at + length (answer_bytes (answer_of a names.now)) ≤ length out.old }
    ensures { Stored out.old at (answer_bytes (answer_of a names.now)) out.new result }
{
    match a {
        Answer::Begun => text::put_words(out, at, b"N"),
        Answer::Unset => text::put_words(out, at, b"R -"),
        Answer::Shown(v, w) => put_shown(out, at, v, w),
        Answer::Wrote(w) => put_headed(out, at, b"W ", w),
        Answer::Held(w) => put_headed(out, at, b"H ", w),
        Answer::Applied(count) => put_applied(out, at, names, count),
        Answer::Yes => text::put_words(out, at, b"T yes"),
        Answer::No => text::put_words(out, at, b"T no"),
        Answer::Unknown => text::put_words(out, at, b"T unknown"),
        Answer::Refused(r) => text::put_field(out, at, b"E ", u16::from(r)),
    }
}

// Writes the line of an answer, with its LF, from place at on, and returns the place behind it. None: the buffer is too short for it, and
// nothing is written.
pub fn put(out: &mut [u8], at: usize, a: Answer, names: &[Name; APPLIED]) -> Option<usize>
    ensures answer { written_of result ≡ put_answer out.old at (answer_line (answer_of a names.now)) }
    ensures written { out.new ≡ buffer out.old at (answer_line (answer_of a names.now)) }
    ensures line_fits { length (answer_line (answer_of a names.now)) ≤ most_answer }
{
    let n = answer_length(a, names);
    if out.len() < at || out.len() - at <= n {
        return None;
    }
    let p = put_answer(out, at, a, names);
    out[p] = b'\n';
    Some(p + 1)
}
