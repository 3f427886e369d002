// The edges of the saved image, run.
#![tactic(auto)]

use block::{BLOCK, CHECK, PAYLOAD_AT};
use clock::{Clock, PLACES};
use image::Unsaved;
use load::Fault;
use std::io;
use table::{Cell, DONE, Desk, OPENS, Open, Table};

// The bytes of the image of two desks.
const SAVED: usize = 3072;
// More than it needs.
const ROOM: usize = 4000;

fn say_saving(rt: &impl Print, saving: Result<usize, Unsaved>) -> io::Result<()> {
    match saving {
        Ok(SAVED) => rt.println("3072 bytes"),
        Ok(_) => rt.println("another length"),
        Err(Unsaved::Broken) => rt.println("13"),
        Err(Unsaved::Short) => rt.println("14"),
    }
}

fn say_loading(rt: &impl Print, loading: Result<Table, Fault>) -> io::Result<()> {
    match loading {
        Ok(_) => rt.println("loaded"),
        Err(Fault::WrongLength) => rt.println("15"),
        Err(Fault::Damaged(k)) => println!(rt; "12 at block {k}"),
        Err(Fault::Broken(k)) => println!(rt; "13 at block {k}"),
    }
}

fn say_same(rt: &impl Print, same: bool) -> io::Result<()> {
    rt.println(if same { "yes" } else { "no" })
}

// Two desks and a cell: desk 1 has written status 2, which desk 2 has yet to receive. The open write is in the entry named.
fn one_write(entry: usize) -> Table {
    let mut one = [0; PLACES];
    one[0] = 1;
    let mut t = table::fresh(2, 1);
    t.core.desks[0] = Desk {
        applied: one,
        clock: Clock { at: one },
    };
    let cell = Cell {
        writer: 1,
        status: 2,
        vector: one,
    };
    t.cells[0] = cell;
    let mut marks = [0; PLACES];
    marks[0] = DONE;
    if entry < OPENS {
        t.opens[entry] = Open {
            writer: 1,
            status: 2,
            cell: 1,
            vector: one,
            marks,
        };
    }
    t
}

// A desk more in the first block, and its check made right.
fn bend(b: &mut [u8; SAVED]) {
    let c = b[CHECK];
    if c < 250 {
        b[PAYLOAD_AT] = 3;
        b[CHECK] = c + 5;
    }
}

fn short(rt: &impl Print, out: &mut [u8; ROOM], found: &[u8; ROOM]) -> io::Result<()> {
    rt.print("a buffer one byte short: ")?;
    say_saving(rt, image::save(one_write(5), &mut out[..SAVED - 1]))?;
    rt.print("left as found: ")?;
    say_same(rt, *out == *found)
}

fn long(rt: &impl Print, out: &mut [u8; ROOM], found: &[u8; ROOM]) -> io::Result<()> {
    rt.print("long enough: ")?;
    say_saving(rt, image::save(one_write(5), out))?;
    rt.print("bytes past the image stay: ")?;
    say_same(rt, out[SAVED..] == found[SAVED..])?;
    rt.print("reloaded: ")?;
    say_loading(rt, load::load(&out[..SAVED]))
}

fn saved_again(rt: &impl Print, out: &[u8; ROOM], again: &mut [u8; SAVED]) -> io::Result<()> {
    rt.print("and saved again gives its bytes: ")?;
    let t = load::load(&out[..SAVED]).unwrap_or(table::fresh(0, 0));
    say_saving(rt, image::save(t, again))?;
    say_same(rt, out[..SAVED] == again[..])
}

fn elsewhere(rt: &impl Print, other: &mut [u8; SAVED], again: &[u8; SAVED]) -> io::Result<()> {
    rt.print("the write in another entry gives the same bytes: ")?;
    say_saving(rt, image::save(one_write(OPENS - 1), other))?;
    say_same(rt, *other == *again)
}

fn lost(rt: &impl Print, other: &mut [u8; SAVED]) -> io::Result<()> {
    rt.print("the open write lost: ")?;
    say_saving(rt, image::save(one_write(OPENS), other))
}

fn changed(rt: &impl Print, out: &[u8; ROOM], again: &mut [u8; SAVED]) -> io::Result<()> {
    rt.print("a byte more: ")?;
    say_loading(rt, load::load(&out[..SAVED + 1]))?;
    rt.print("a byte of a payload and the check changed: ")?;
    bend(again);
    say_loading(rt, load::load(again))
}

fn main(rt: HostRuntime) -> io::Result<()> {
    rt.print("an all-zero block: ")?;
    say_loading(&rt, load::load(&[0; BLOCK]))?;
    rt.print("nothing: ")?;
    say_loading(&rt, load::load(&[]))?;
    let found = [7; ROOM];
    let mut out = found;
    let mut again = [7; SAVED];
    let mut other = [7; SAVED];
    short(&rt, &mut out, &found)?;
    long(&rt, &mut out, &found)?;
    saved_again(&rt, &out, &mut again)?;
    elsewhere(&rt, &mut other, &again)?;
    lost(&rt, &mut other)?;
    changed(&rt, &out, &mut again)
}
