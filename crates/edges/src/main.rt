// The edges of document 01, "At each edge", on table values: one answer line for each.
#![tactic(auto)]

use access::{Delivered, Done};
use answer::LONGEST_ANSWER;
use reply::{APPLIED, Answer, Name, Refusal};
use std::io;
use table::Table;

fn say_named(rt: &impl Print, a: Answer, names: &[Name; APPLIED]) -> io::Result<()> {
    let mut out = [0; LONGEST_ANSWER];
    let len = answer::put(&mut out, 0, a, names).unwrap_or(0);
    rt.write_all(&out[..len])
}

fn say(rt: &impl Print, a: Answer) -> io::Result<()> {
    let none = Name {
        writer: 0,
        number: 0,
    };
    say_named(rt, a, &[none; APPLIED])
}

// N n m
fn begin(rt: &impl Print, n: usize, m: usize) -> io::Result<Table> {
    let Some(t) = table::begin(n, m) else {
        say(rt, Answer::Refused(Refusal::NoSize))?;
        return Ok(table::fresh(0, 0));
    };
    say(rt, Answer::Begun)?;
    Ok(t)
}

// The answer is said, and the table goes on.
fn said(rt: &impl Print, done: Done) -> io::Result<Table> {
    say(rt, done.answer)?;
    Ok(done.table)
}

fn write(rt: &impl Print, t: Table, i: usize, x: usize, v: usize) -> io::Result<Table> {
    said(rt, access::write(t, i, x, v))
}

fn read(rt: &impl Print, t: Table, i: usize, x: usize) -> io::Result<Table> {
    said(rt, access::read(t, i, x))
}

fn deliver(rt: &impl Print, t: Table, i: usize, u: usize, k: usize) -> io::Result<Table> {
    let Delivered {
        table,
        answer,
        names,
    } = access::deliver(t, i, u, k);
    say_named(rt, answer, &names)?;
    Ok(table)
}

fn trip(rt: &impl Print, t: Table, i: usize, list: &[u16]) -> io::Result<Table> {
    said(rt, access::trip(t, i, list))
}

// As many writes of desk 1 as asked for, unsaid.
fn many(mut t: Table, times: usize) -> Table {
    for k in 0..times {
        t = access::write(t, 1, 1, k % 3).table;
    }
    t
}

fn sizes(rt: &impl Print) -> io::Result<()> {
    begin(rt, 16, 64)?;
    begin(rt, 17, 64)?;
    begin(rt, 16, 65)?;
    begin(rt, 0, 1)?;
    Ok(())
}

fn steps(rt: &impl Print) -> io::Result<()> {
    let t = begin(rt, 2, 2)?;
    let t = write(rt, t, 1, 1, 2)?;
    let t = write(rt, t, 1, 1, 3)?;
    let t = write(rt, t, 3, 1, 0)?;
    let t = write(rt, t, 1, 3, 0)?;
    let t = trip(rt, t, 1, &[1; 16])?;
    let t = trip(rt, t, 1, &[1; 17])?;
    read(rt, t, 2, 2)?;
    Ok(())
}

// With n = 2, 64 undelivered writes, then 5; one delivered and applied, then accepted.
fn open_writes(rt: &impl Print) -> io::Result<()> {
    let t = begin(rt, 2, 1)?;
    let t = many(t, 63);
    let t = write(rt, t, 1, 1, 0)?;
    let t = write(rt, t, 1, 1, 0)?;
    let t = deliver(rt, t, 2, 1, 2)?;
    let t = write(rt, t, 1, 1, 0)?;
    let t = deliver(rt, t, 2, 1, 1)?;
    let t = write(rt, t, 1, 1, 0)?;
    deliver(rt, t, 2, 1, 1)?;
    Ok(())
}

// A write that waits for desk 16.
fn last_desk(rt: &impl Print) -> io::Result<()> {
    let t = begin(rt, 16, 1)?;
    let t = write(rt, t, 16, 1, 1)?;
    let t = deliver(rt, t, 1, 16, 1)?;
    let t = read(rt, t, 1, 1)?;
    let t = write(rt, t, 1, 1, 2)?;
    let t = deliver(rt, t, 2, 1, 1)?;
    let t = deliver(rt, t, 2, 16, 1)?;
    let t = read(rt, t, 2, 1)?;
    deliver(rt, t, 17, 1, 1)?;
    Ok(())
}

// With n = 1 a write is never open; write 65,535 and the next.
fn alone(rt: &impl Print) -> io::Result<()> {
    let t = begin(rt, 1, 1)?;
    let t = many(t, 65534);
    let t = write(rt, t, 1, 1, 1)?;
    let t = write(rt, t, 1, 1, 2)?;
    read(rt, t, 1, 1)?;
    Ok(())
}

// A table value that breaks the rules: 13 before all else.
fn broken(rt: &impl Print) -> io::Result<()> {
    let mut t = begin(rt, 2, 1)?;
    t.cells[0].status = 1;
    let t = read(rt, t, 9, 9)?;
    write(rt, t, 1, 1, 0)?;
    Ok(())
}

fn main(rt: HostRuntime) -> io::Result<()> {
    sizes(&rt)?;
    steps(&rt)?;
    open_writes(&rt)?;
    last_desk(&rt)?;
    alone(&rt)?;
    broken(&rt)
}
