// The table: a small core by value, and two arrays that are lent: every desk's cells, and the entries for open writes.
#![tactic(auto)]

ghost use Rattle.std.specs.Prelude.{◌≡◌, ℕ, ◌<◌, ◌≤◌, true, false};
ghost use Rattle.clock.specs.Vectors.{places, place};
ghost use Rattle.machine.specs.Rules.{In};
ghost use Rattle.machine.specs.Steps.{everywhere, within, begins};
ghost use Rattle.table.specs.Value.{desk_cells, all_cells, entries, CellsShape, open_at, FullOpen, OpensShape, MarkPut};
ghost use Rattle.table.specs.TypeShape.{DesksShape, Shaped};
ghost use Rattle.table.specs.EntryNames.{named_at, free_at, FoundBy, FoundIn};
ghost use Rattle.table.specs.Model.{open_m, slot};
ghost use Rattle.table.specs.Beginning.{fresh_table, begin_table, Begins};

use clock::{Clock, PLACES};

// Cells to a desk.
pub const CELLS: usize = 64;
// Entries for open writes.
pub const OPENS: usize = 64;
// The mark of a desk that holds an open write, and of one that has applied it; 0 where it was not received.
// Kept: marks, statuses and writers are numbers, and so are n and m. A table value that is handed in may hold any, and 13 is the answer to it.
pub const HELD: u16 = 1;

pub const DONE: u16 = 2;
// The largest status.
pub const MOST_STATUS: usize = 2;
// The two lent arrays.
pub type Cells = [Cell; PLACES * CELLS];

pub type Opens = [Open; OPENS];

#[derive(Clone, Copy, Debug, PartialEq, Eq)]
pub struct Desk {
    pub applied: [u16; PLACES],
    pub clock: Clock,
}

#[derive(Clone, Copy, Debug, PartialEq, Eq)]
pub struct Core {
    pub n: usize,
    pub m: usize,
    pub desks: [Desk; PLACES],
}

// Writer 0: unset. (Kept: an Option would shut out the unset cell with a status, which is 13.)
#[derive(Clone, Copy, Debug, PartialEq, Eq)]
pub struct Cell {
    pub writer: u16,
    pub status: u16,
    pub vector: [u16; PLACES],
}

// Writer 0: the entry is free. A mark: 0 not received, 1 held, 2 applied. (Kept: a free entry has its old numbers, which two tables may differ in.)
#[derive(Clone, Copy, Debug, PartialEq, Eq)]
pub struct Open {
    pub writer: u16,
    pub status: u16,
    pub cell: u16,
    pub vector: [u16; PLACES],
    pub marks: [u16; PLACES],
}

impl Cell {
    pub const UNSET: Cell = Cell {
        writer: 0,
        status: 0,
        vector: [0; PLACES],
    };
}

impl Open {
    pub const FREE: Open = Open {
        writer: 0,
        status: 0,
        cell: 0,
        vector: [0; PLACES],
        marks: [0; PLACES],
    };
}

#[derive(Clone, Copy, Debug, PartialEq, Eq)]
pub struct Table {
    pub core: Core,
    pub cells: Cells,
    pub opens: Opens,
}

// Kept, though they do nothing: what a type says of arrays within a struct the search does not find; here it is proved, once.
// What a reference leads to says less than a value, hence the copies, which the compiler drops.

pub fn desks_shape(desks: [Desk; PLACES])
    ensures { DesksShape desks }
{}

fn cell_values(cells: Cells)
    ensures { CellsShape cells }
{}

fn open_values(opens: Opens)
    ensures { OpensShape opens }
{}

pub fn open_shape(o: Open)
    ensures { FullOpen o }
{}

pub fn cells_shape(cells: &Cells)
    ensures { CellsShape cells.now }
{
    cell_values(*cells);
}

pub fn opens_shape(opens: &Opens)
    ensures { OpensShape opens.now }
{
    open_values(*opens);
}

pub fn table_shape(t: Table)
    ensures { Shaped t }
{
    desks_shape(t.core.desks);
    cell_values(t.cells);
    open_values(t.opens);
}

// Cell x of desk i stands at s, s = (i - 1) * CELLS + (x - 1).

pub fn slot_of(i: usize, x: usize) -> usize
    requires { (In places i) × (In desk_cells x) }
    ensures { (result ≡ slot i x) × (result < all_cells) }
{
    (i - 1) * CELLS + (x - 1)
}

// Open writes: entries from 0; desks and places within an entry from 0.

// A mark stored. Kept: the caller learns here, from the type, that the entry has a mark of each desk.
pub fn put_mark(opens: &mut Opens, e: usize, i: usize, k: u16)
    requires { (e < entries) × (i < places) }
    ensures { MarkPut opens.old e i k opens.new }
{
    open_shape(opens[e]);
    opens[e].marks[i] = k;
}

// Has every desk of the n applied entry e?
pub fn all_applied(opens: &Opens, e: usize, n: usize) -> bool
    requires { (e < entries) × (n ≤ places) }
    ensures { result ≡ everywhere n (open_m (open_at opens.now e)) }
{
    (0..n).all(|i| opens[e].marks[i] == DONE)
}

// The number at place u, from 1, and 0 where there is none.
pub fn at_place(v: [u16; PLACES], u: usize) -> u16
    ensures { result ≡ place v u }
{
    match u {
        1..=PLACES => v[u - 1],
        _ => 0,
    }
}

// Where the search for an entry of write u.k begins: any entry may hold it, and this makes most searches short.
fn start(u: usize, k: u16) -> usize
    ensures { result < entries }
{
    (usize::from(k) * PLACES + u % PLACES) % OPENS
}

// Does entry e hold write k of desk u (from 1)?
pub fn holds(opens: &Opens, e: usize, u: usize, k: u16) -> bool
    requires { (e < entries) × (In places u) }
    ensures { result ≡ named_at opens.now u k e }
{
    usize::from(opens[e].writer) == u && opens[e].vector[u - 1] == k
}

// The first entry that passes, from entry first on and round.
fn search_from<F: Fn(usize) -> bool>(first: usize, passes: F) -> Option<usize>
    requires first_in { first < entries }
    requires callable { (e : ℕ) → e < entries → F.pre passes e }
    ensures { FoundBy (λ e. F.post passes e true) (λ e. F.post passes e false) result }
{
    for j in 0..OPENS {
        let e = (first + j) % OPENS;
        if passes(e) {
            return Some(e);
        }
    }
    None
}

// The entry of write k of desk u (from 1).
pub fn find(opens: &Opens, u: usize, k: u16) -> Option<usize>
    requires { In places u }
    ensures { FoundIn (named_at opens.now u k) result }
{
    search_from(start(u, k), |e| holds(opens, e, u, k))
}

// A free entry, for write k of desk u.
pub fn find_free(opens: &Opens, u: usize, k: u16) -> Option<usize>
    ensures { FoundIn (free_at opens.now) result }
{
    search_from(start(u, k), |e| opens[e].writer == 0)
}

// Every desk's counts and clock at zero.
#[tactic(auto, unfolding(crate::specs::Beginning::fresh_table))]
pub fn fresh_core(n: usize, m: usize) -> Core
    ensures { result ≡ (fresh_table n m).core }
{
    let zero = [0u16; PLACES];
    let desk = Desk {
        applied: zero,
        clock: Clock { at: zero },
    };
    Core {
        n,
        m,
        desks: [desk; PLACES],
    }
}

// The table of those, with nothing set and nothing open.
pub fn fresh(n: usize, m: usize) -> Table
    ensures { result ≡ fresh_table n m }
{
    Table {
        core: fresh_core(n, m),
        cells: [Cell::UNSET; PLACES * CELLS],
        opens: [Open::FREE; OPENS],
    }
}

// Is i within 1 to n?
pub fn inside(n: usize, i: usize) -> bool
    ensures { result ≡ within n i }
{
    (1..=n).contains(&i)
}

pub fn begins(n: usize, m: usize) -> bool
    ensures { result ≡ begins n m }
{
    inside(PLACES, n) && inside(CELLS, m)
}

// Everything starts at zero and unset. None: refusal 11.
pub fn begin(n: usize, m: usize) -> Option<Table>
    ensures { Begins n m result }
{
    if begins(n, m) {
        Some(fresh(n, m))
    } else {
        None
    }
}
