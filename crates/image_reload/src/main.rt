// A table that was saved and reloaded goes on exactly as the one that was not (document 01, "Saved image").
//
// The schedule on standard input is run on two tables. The first is never saved; the second is saved and reloaded, in a first run where a line S
// stands, in a second run after every step. For each step: the answers of both, whether these are the same, and whether the saved images are. A
// line Z goes back to no table.
#![tactic(auto)]

ghost use Rattle.std.specs.Prelude.{◌≡◌, IfOk};
ghost use Rattle.image_reload.specs.Live.{Live, BothLive};

use answer::LONGEST_ANSWER;
use image::IMAGE;
use reader::Reader;
use std::io;
use table::Table;

// The most bytes of the schedule.
const TEXT: usize = 4096;

// What a step leaves: the table, and the answer without its LF.
#[derive(Drop)]
struct Said<'a> {
    table: Table,
    answer: &'a [u8],
}

// The table that was never saved, and the one that was.
#[derive(Clone, Copy)]
struct Two {
    kept: Table,
    reloaded: Table,
}

fn say_same(rt: &impl Print, same: bool) -> io::Result<()> {
    rt.print(if same { " | same" } else { " | DIFFERENT" })
}

// A step, the line with its LF. The answer stands in the buffer.
fn step<'a>(t: Table, line: &[u8], buffer: &'a mut [u8; LONGEST_ANSWER]) -> Said<'a>
    requires { Live t }
    ensures { Live result.table }
{
    let Table {
        core,
        mut cells,
        mut opens,
    } = t;
    let p = session::run(core, &mut cells, &mut opens, line, 0, buffer);
    let table = Table {
        core: p.core,
        cells,
        opens,
    };
    Said {
        table,
        answer: &buffer[..p.len.saturating_sub(1)],
    }
}

// A table saved into the buffer, where it is not refused.
fn saved(t: Table, buffer: &mut [u8; IMAGE]) -> Option<&[u8]> {
    let len = image::save(t, buffer).ok()?;
    buffer.get(..len)
}

// Do two tables have the same image, byte for byte?
fn same_image(a: Table, b: Table) -> bool {
    let (mut first, mut second) = (image::room(), image::room());
    match (saved(a, &mut first), saved(b, &mut second)) {
        (Some(x), Some(y)) => x == y,
        _ => false,
    }
}

// The table of an image; none where it is refused.
fn loaded(rt: &impl Print, b: &[u8]) -> io::Result<Table>
    ensures { IfOk result (λ t. Live t) }
{
    match load::load(b) {
        Ok(t) => {
            rt.print(" | reloaded")?;
            Ok(t)
        }
        Err(fault) => {
            print!(rt; " | NOT RELOADED: {}", fault.number())?;
            Ok(table::fresh(0, 0))
        }
    }
}

// A table saved and reloaded. What is not saved is not reloaded: no bytes are 15.
fn reload(rt: &impl Print, t: Table) -> io::Result<Table>
    ensures { IfOk result (λ u. Live u) }
{
    let mut buffer = image::room();
    loaded(rt, saved(t, &mut buffer).unwrap_or_default())
}

// A step of both.
fn both(rt: &impl Print, t: Two, line: &[u8]) -> io::Result<Two>
    requires { BothLive t }
    ensures { IfOk result (λ u. BothLive u) }
{
    let (mut first, mut second) = ([0; LONGEST_ANSWER], [0; LONGEST_ANSWER]);
    let a = step(t.kept, line, &mut first);
    let b = step(t.reloaded, line, &mut second);
    rt.write_all(a.answer)?;
    rt.print(" | ")?;
    rt.write_all(b.answer)?;
    say_same(rt, a.answer == b.answer)?;
    Ok(Two {
        kept: a.table,
        reloaded: b.table,
    })
}

// The second saved and reloaded.
fn again(rt: &impl Print, t: Two) -> io::Result<Two>
    requires { BothLive t }
    ensures { IfOk result (λ u. BothLive u) }
{
    Ok(Two {
        kept: t.kept,
        reloaded: reload(rt, t.reloaded)?,
    })
}

// Says whether both have the same image, and hands them on.
fn compared(rt: &impl Print, t: Two) -> io::Result<Two>
    ensures { IfOk result (λ u. u ≡ t) }
{
    say_same(rt, same_image(t.kept, t.reloaded))?;
    rt.print("\n")?;
    Ok(t)
}

// No table.
fn nothing() -> Two
    ensures { BothLive result }
{
    let none = table::fresh(0, 0);
    Two {
        kept: none,
        reloaded: none,
    }
}

// A line, with its LF; `after` is what is done after a step.
fn one<F: Fn(Two) -> io::Result<Two>>(
    rt: &impl Print,
    t: Two,
    line: &[u8],
    after: &F,
) -> io::Result<Two>
    requires live { BothLive t }
    requires may { (u : _) → BothLive u → F.pre after.now u }
    requires goes_on { (u r : _) → BothLive u → F.post after.now u r → IfOk r (λ w. BothLive w) }
    ensures { IfOk result (λ u. BothLive u) }
{
    match line {
        [b'Z', b'\n'] => {
            rt.print("Z\n")?;
            Ok(nothing())
        }
        [b'S', b'\n'] => {
            rt.print("S")?;
            compared(rt, again(rt, t)?)
        }
        _ => compared(rt, after(both(rt, t, line)?)?),
    }
}

// Each line that a LF ends.
fn run<F: Fn(Two) -> io::Result<Two>>(rt: &impl Print, text: &[u8], after: F) -> io::Result<()>
    requires may { (u : _) → BothLive u → F.pre after u }
    requires goes_on { (u r : _) → BothLive u → F.post after u r → IfOk r (λ w. BothLive w) }
{
    let mut t = nothing();
    let mut reader = Reader::new(text);
    // Kept: a line tells where the next one begins; `split_inclusive` does not check in a function with type parameters.
    while reader.ended() {
        let next = reader.after();
        t = one(rt, t, &text[reader.at..next.at], &after)?;
        reader = next;
    }
    Ok(())
}

fn twice(rt: &impl Print, text: &[u8]) -> io::Result<()> {
    rt.println("Saved and reloaded at each S")?;
    run(rt, text, |t| Ok(t))?;
    rt.println("Saved and reloaded after every step")?;
    run(rt, text, |t| again(rt, t))
}

fn main(rt: HostRuntime) -> io::Result<()> {
    let mut text = [0; TEXT];
    let n = console::fill(&mut rt.stdin(), &mut text)?;
    twice(&rt, &text[..n])
}
