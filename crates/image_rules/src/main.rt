// Each rule of the saved image (document 01) broken alone: the answers of load.
//
// Standard input has a line for each case, and says which it is by its first byte.
//   N n m, W i x v, D i u k, R i x   a schedule: N begins it
//   S                                it is run, and its table saved: the image at hand
//   b k.j=v k.j=v .. rule            a copy of the image, of b blocks, in which byte j of block k becomes v, is loaded
//                                    with the checks as they were, and then with right ones
// Every other line is a comment.
#![tactic(auto)]

ghost use Rattle.std.specs.Prelude.{◌*◌, ◌≤◌, length, IfOk};
ghost use Rattle.block.specs.Limits.{block_bytes};

use block::BLOCK;
use clock::PLACES;
use image::IMAGE;
use load::Fault;
use reader::Reader;
use std::io;
use table::{CELLS, Cell, OPENS, Open, Table};

// The most bytes of the input.
const TEXT: usize = 65536;
// The most numbers of a line.
const LIST: usize = 128;

// (It loads here: a table that is handed on in a `Result` is laid out several times, and none is looked at.)
fn say_loading(rt: &impl Print, b: &[u8]) -> io::Result<()> {
    match load::load(b) {
        Ok(_) => rt.print(" loaded"),
        Err(Fault::WrongLength) => rt.print(" 15"),
        Err(Fault::Damaged(k)) => print!(rt; " 12 at {k}"),
        Err(Fault::Broken(k)) => print!(rt; " 13 at {k}"),
    }
}

// The check of each block, put right.
fn seal(image: &mut [u8]) {
    let (blocks, _) = image.as_chunks_mut::<BLOCK>();
    for block in blocks {
        block::seal(block);
    }
}

// Kept: a count beside the list, since a number that has not ended is the number of blocks too.
// A byte of a line's numbers: a digit of the number at hand, or its end. The result is the number at hand then.
fn take(list: &mut [u16; LIST], count: usize, b: u8) -> usize {
    let Some(v) = list.get_mut(count) else {
        return count;
    };
    let b'0'..=b'9' = b else {
        return count + 1;
    };
    if *v < 1000 {
        *v = 10 * *v + u16::from(b - b'0');
    }
    count
}

// The numbers that a line begins with, and how many. One byte follows each; the first letter ends them.
fn numbers(line: &[u8], list: &mut [u16; LIST]) -> usize {
    let mut count = 0;
    for b in line {
        if b'A' <= *b {
            return count;
        }
        count = take(list, count, *b);
    }
    count
}

// The bytes of so many blocks.
fn bytes_of(blocks: u16) -> usize
    ensures { result ≤ 65535 * block_bytes }
{
    BLOCK * usize::from(blocks)
}

// Byte j of block k becomes v, for the numbers k, j, v three by three.
fn change(b: &mut [u8; IMAGE], list: &[u16]) {
    let (changes, _) = list.as_chunks::<3>();
    for [k, j, v] in changes {
        let at = bytes_of(*k) + usize::from(*j);
        if let Some(byte) = b.get_mut(at) {
            *byte = (*v % 256) as u8;
        }
    }
}

// A case: the copy, its answers said behind the line.
fn broken(rt: &impl Print, good: &[u8; IMAGE], line: &[u8]) -> io::Result<()> {
    let mut list = [0; LIST];
    let count = numbers(line, &mut list);
    let len = bytes_of(list[0]);
    let mut b = *good;
    if let Some(changes) = list.get(1..count) {
        change(&mut b, changes);
    }
    rt.write_all(line)?;
    rt.print(":")?;
    if len <= IMAGE {
        let image = &mut b[..len];
        say_loading(rt, image)?;
        seal(image);
        say_loading(rt, image)?;
    }
    rt.print("\n")
}

// The table that a schedule leaves, its answers said.
fn replay(rt: &impl Print, text: &[u8]) -> io::Result<Table> {
    let core = session::start();
    let mut cells = [Cell::UNSET; PLACES * CELLS];
    let mut opens = [Open::FREE; OPENS];
    let mut out = [0; 16384];
    let p = session::run(core, &mut cells, &mut opens, text, 0, &mut out);
    rt.write_all(&out[..p.len])?;
    Ok(Table {
        core: p.core,
        cells,
        opens,
    })
}

fn save(rt: &impl Print, good: &mut [u8; IMAGE], schedule: &[u8]) -> io::Result<()> {
    let t = replay(rt, schedule)?;
    let mut b = image::room();
    let Ok(len) = image::save(t, &mut b) else {
        return rt.println("not saved");
    };
    print!(rt; "{len} bytes:")?;
    if let Some(image) = b.get(..len) {
        say_loading(rt, image)?;
    }
    rt.print("\n")?;
    *good = b;
    Ok(())
}

// The line that the reader stands at. The result is where the schedule begins.
fn one(
    rt: &impl Print,
    good: &mut [u8; IMAGE],
    from: usize,
    reader: Reader<'_>,
) -> io::Result<usize>
    requires { (from ≤ reader.at) × (reader.at ≤ length reader.text.now) }
    ensures { IfOk result (λ next. next ≤ reader.entry.at) }
{
    let line = reader.line();
    match line {
        [b'N', ..] => return Ok(reader.at),
        [b'S', ..] => save(rt, good, &reader.text[from..reader.at])?,
        [b'0'..=b'9', ..] => broken(rt, good, line)?,
        _ => {}
    }
    Ok(from)
}

// Each line that a LF ends.
fn run(rt: &impl Print, text: &[u8]) -> io::Result<()> {
    let mut good = image::room();
    let mut from = 0;
    let mut reader = Reader::new(text);
    // Kept: a line tells where the next one begins.
    while reader.ended() {
        from = one(rt, &mut good, from, reader)?;
        reader = reader.after();
    }
    Ok(())
}

fn main(rt: HostRuntime) -> io::Result<()> {
    let mut text = [0; TEXT];
    let n = console::fill(&mut rt.stdin(), &mut text)?;
    run(&rt, &text[..n])
}
