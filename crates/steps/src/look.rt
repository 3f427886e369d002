// Read and trip: what a desk looks at joins its clock.
ghost use Rattle.std.specs.Prelude.{◌≡◌, true};
ghost use Rattle.laws.specs.Lists.{every};
ghost use Rattle.machine.specs.Rules.{In};
ghost use Rattle.machine.specs.Steps.{within, Read, Trip};
ghost use Rattle.clock.specs.Vectors.{places};
ghost use Rattle.table.specs.Value.{desk_cells, cell_at};
ghost use Rattle.table.specs.Model.{slot};
ghost use Rattle.steps.specs.Turn.{Apart, turned, done};
ghost use Rattle.steps.specs.Mirror.Look.{shown_cell, look_turn, SomeLook, Looks};
ghost use Rattle.steps.specs.Mirror.Trip.{seen_nothing, see_cell, see_all, verdict_of, trip_turn};

use crate::common::need;
use clock::Clock;
use reply::{Answer, Name, Refusal};
use table::{Cell, Cells, Desk};

// The most cells of a trip.
const TRIP: usize = 16;

fn shown(c: &Cell) -> Answer
    ensures { result ≡ shown_cell c.now }
{
    if c.writer == 0 {
        return Answer::Unset;
    }
    let name = Name {
        writer: c.writer,
        number: table::at_place(c.vector, usize::from(c.writer)),
    };
    Answer::Shown(c.status, name)
}

// The read of cell x at desk i, both in range.
fn look(desk: &mut Desk, cells: &Cells, i: usize, x: usize) -> Answer
    requires { (In places i) × (In desk_cells x) }
    ensures { done desk.new result ≡ look_turn desk.old (cell_at cells.now (slot i x)) }
{
    let cell = &cells[table::slot_of(i, x)];
    desk.clock = desk.clock.join(cell.vector);
    shown(cell)
}

pub fn read_at(
    n: usize,
    m: usize,
    desk: &mut Desk,
    cells: &Cells,
    i: usize,
    x: usize,
) -> Result<Answer, Refusal>
    requires { SomeLook n m cells.now i desk.old }
    ensures turn { Looks n m cells.now i desk.old (Read i x) (turned desk.new result) }
    ensures apart { Apart result }
{
    need(table::inside(n, i), Refusal::NoDesk)?;
    need(table::inside(m, x), Refusal::NoCell)?;
    Ok(look(desk, cells, i, x))
}

// What a trip has seen so far: the clock, whether a cell read 2, whether all read 1.
// Kept: two flags, of which neither tells whether the other counts.
#[derive(Drop)]
struct Seen {
    pub clock: Clock,
    pub two: bool,
    pub one: bool,
}

// Every cell of the list is 1 to m.
fn all_inside(m: usize, list: &[u16]) -> bool
    ensures { result ≡ every (within m) list.now }
{
    list.iter().all(|x| table::inside(m, usize::from(*x)))
}

// An unset cell has status 0 and a vector of zeros.
fn see(s: Seen, c: &Cell) -> Seen
    ensures { result ≡ see_cell s c.now }
{
    Seen {
        clock: s.clock.join(c.vector),
        two: s.two || c.status == 2,
        one: s.one && c.status == 1,
    }
}

// Reads the listed cells of desk i in order.
fn see_all(clock: Clock, cells: &Cells, i: usize, list: &[u16]) -> Seen
    requires { (In places i) × (every (within desk_cells) list.now ≡ true) }
    ensures { result ≡ see_all cells.now i (seen_nothing clock) list.now }
{
    let mut s = Seen {
        clock,
        two: false,
        one: true,
    };
    for x in list {
        s = see(s, &cells[table::slot_of(i, usize::from(*x))]);
    }
    s
}

fn verdict(s: Seen) -> Answer
    ensures { result ≡ verdict_of s }
{
    if s.two {
        Answer::No
    } else if s.one {
        Answer::Yes
    } else {
        Answer::Unknown
    }
}

// The trip of desk i over the listed cells, all in range.
fn travel(desk: &mut Desk, cells: &Cells, i: usize, list: &[u16]) -> Answer
    requires { (In places i) × (every (within desk_cells) list.now ≡ true) }
    ensures { done desk.new result ≡ trip_turn desk.old cells.now i list.now }
{
    let s = see_all(desk.clock, cells, i, list);
    desk.clock = s.clock;
    verdict(s)
}

pub fn trip_at(
    n: usize,
    m: usize,
    desk: &mut Desk,
    cells: &Cells,
    i: usize,
    list: &[u16],
) -> Result<Answer, Refusal>
    requires { SomeLook n m cells.now i desk.old }
    ensures turn { Looks n m cells.now i desk.old (Trip i list.now) (turned desk.new result) }
    ensures apart { Apart result }
{
    need(table::inside(n, i), Refusal::NoDesk)?;
    need(table::inside(TRIP, list.len()), Refusal::TripSize)?;
    need(all_inside(m, list), Refusal::NoCell)?;
    Ok(travel(desk, cells, i, list))
}
