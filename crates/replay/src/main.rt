// Reads a schedule from standard input and writes the answers.
#![tactic(auto)]

ghost use Rattle.std.specs.Prelude.{◌≡◌, ◌<◌, ◌≤◌, length, OnOk};
ghost use Rattle.std.specs.Io.KnownBytes.{Appends};
ghost use Rattle.session.specs.Transcript.{most_text, transcript};
ghost use Rattle.replay.specs.Answers.{Comes};

use clock::PLACES;
use std::io;
use std::io::{Read, Write};
use table::{CELLS, Cell, OPENS, Open};

// The most bytes of a schedule.
const LONGEST_TEXT: usize = 65536;

// What is written at a time.
const PART: usize = 16384;

// The one place that writes answers. It asks that what it is handed is what comes next of all that is printed for the text: from so many bytes,
// which were handed over before, up to so many.
// Kept: `sent` and `next` are for the contract alone; the edits nothing_written and another_number rest on it.
fn print<W: Write>(to: &mut W, text: &[u8], sent: usize, next: usize, part: &[u8]) -> io::Result<()>
    requires { Comes (transcript text.now) sent next part.now }
    ensures { OnOk result (Appends (W.contents to.old) (W.contents to.new) part.now) }
{
    to.write_all(part)
}

// Nothing is done here: it asks that all that is printed for the text was handed over.
fn all_sent(text: &[u8], sent: usize)
    requires { sent ≡ length (transcript text.now) }
{}

// The lines of a text one after the other, each part of the answers written.
fn lines<W: Write>(to: &mut W, text: &[u8]) -> io::Result<()>
    requires { length text.now ≤ most_text }
    ensures { OnOk result (Appends (W.contents to.old) (W.contents to.new) (transcript text.now)) }
{
    let mut core = session::start();
    let mut cells = [Cell::UNSET; PLACES * CELLS];
    let mut opens = [Open::FREE; OPENS];
    let mut out = [0; PART];
    let mut at = 0;
    let mut sent = 0;
    // Kept: each turn goes on where the run before it stopped.
    while at < text.len() {
        let p = session::run(core, &mut cells, &mut opens, text, at, &mut out);
        let next = sent + p.len;
        print(to, text, sent, next, &out[..p.len])?;
        core = p.core;
        at = p.at;
        sent = next;
    }
    all_sent(text, sent);
    Ok(())
}

// The one line for a text that is too long.
fn too_long<W: Write>(to: &mut W, text: &[u8]) -> io::Result<()>
    requires { most_text < length text.now }
    ensures { OnOk result (Appends (W.contents to.old) (W.contents to.new) (transcript text.now)) }
{
    let done = print(to, text, 0, 5, b"E 14\n");
    all_sent(text, 5);
    done
}

// Answers a text: a writer that took all of it holds the transcript, behind what it held before.
fn answer<W: Write>(to: &mut W, text: &[u8]) -> io::Result<()>
    ensures { OnOk result (Appends (W.contents to.old) (W.contents to.new) (transcript text.now)) }
{
    if LONGEST_TEXT < text.len() {
        return too_long(to, text);
    }
    lines(to, text)
}

// The same on standard output, and says so where it can't.
fn reply(rt: &(impl Print + Eprint), text: &[u8]) -> io::Result<()> {
    let answered = answer(&mut io::writer(rt), text);
    if answered.is_err() {
        eprintln!(rt; "replay: standard output: write failed")?;
    }
    answered
}

// Reads the rest of the input and throws it away, so that no writer finds its pipe broken.
fn drain(input: &mut impl Read) -> io::Result<()> {
    io::copy(input, &mut io::sink())?;
    Ok(())
}

// Says that the input could not be read, and hands on why.
fn unread(rt: &impl Eprint, error: io::Error) -> io::Result<()> {
    eprintln!(rt; "replay: standard input: read failed")?;
    Err(error)
}

// What failed is said on standard error, and ends the process with status 1. An input that could not be read to its end is not answered, but where
// it is too long already.
fn main(rt: HostRuntime) -> io::Result<()> {
    let mut input = rt.stdin();
    let mut text = [0; LONGEST_TEXT + 1];
    let n = match console::fill(&mut input, &mut text) {
        Ok(n) => n,
        Err(error) => return unread(&rt, error),
    };
    let replied = reply(&rt, &text[..n]);
    if LONGEST_TEXT < n
        && let Err(error) = drain(&mut input)
    {
        return unread(&rt, error);
    }
    replied
}
