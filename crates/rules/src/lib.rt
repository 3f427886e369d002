// Whether a table value keeps the rules of the image.
#![tactic(auto)]

ghost use Rattle.std.specs.Prelude.{◌≡◌, ◌*◌, ◌<◌, ◌≤◌};
ghost use Rattle.laws.specs.Says.{Says};
ghost use Rattle.machine.specs.Rules.{In};
ghost use Rattle.clock.specs.Vectors.{places, place};
ghost use Rattle.table.specs.Value.{desk_cells, entries, open_at};
ghost use Rattle.table.specs.EntryNames.{entry_number};
ghost use Rattle.table.specs.Sound.{SoundTable};
ghost use Rattle.table.specs.Model.{table_with};
ghost use Rattle.rules.specs.Mirror.Test.{has, owns, gap_of, gaps, last_of, ranges_test, due_test, used_test, entry_test, all_entries_test, live_test, counts_test, set_cell, blank_cell, cell_test, all_cells_test, waits_test, live_mark, all_desks_test, own_test};
ghost use Rattle.rules.specs.Mirror.Parts.{mark_of, used_mark, used_marks, most_marks, limit_test, all_limits_test, zero_cell, zeros_test, used_desk, used_desks};

use clock::PLACES;
use std::array;
use table::{CELLS, Cell, Cells, Core, DONE, Desk, HELD, MOST_STATUS, OPENS, Open, Opens, Table};

// Each desk's count of its own writes.
pub fn own_counts(desks: [Desk; PLACES]) -> [u16; PLACES]
    ensures { result ≡ owns desks }
{
    array::from_fn(|t| desks[t].applied[t])
}

// Is write k of desk u (from 1) open?
fn has(opens: &Opens, u: usize, k: u16) -> bool
    requires { In places u }
    ensures { result ≡ has opens.now u k }
{
    table::find(opens, u, k).is_some()
}

// Of desk u, whose last write is most, the latest write that is not open. (At most 64 are found on the way down.)
fn gap(opens: &Opens, u: usize, most: u16) -> u16
    requires { In places u }
    ensures { result ≡ gap_of (has opens.now u) most }
{
    (1..=most).rev().find(|k| !has(opens, u, *k)).unwrap_or(0)
}

fn gap_counts(own: [u16; PLACES], opens: &Opens) -> [u16; PLACES]
    ensures { result ≡ gaps own opens.now }
{
    array::from_fn(|t| gap(opens, t + 1, own[t]))
}

// Entries. Does no entry after e hold write k of desk u (from 1)?
fn last_of(opens: &Opens, u: usize, k: u16, e: usize) -> bool
    requires { (In places u) × (e < entries) }
    ensures { result ≡ last_of opens.now u k e }
{
    (e + 1..OPENS).all(|j| !table::holds(opens, j, u, k))
}

// (Tests joined by `&` all run, without a branch.)
fn ranges_ok(n: usize, m: usize, o: Open) -> bool
    ensures { result ≡ (ranges_test n m o).passes }
{
    let x = usize::from(o.cell);
    let cell = (1 <= x) & (x <= m) & (usize::from(o.status) <= MOST_STATUS);
    (usize::from(o.writer) <= n) & cell
}

// Cell x, from 0, of a desk with the counts a.
fn set_ok(m: usize, a: [u16; PLACES], x: usize, c: Cell) -> bool
    ensures { result ≡ (set_cell m a x c).passes }
{
    x < m
        && usize::from(c.status) <= MOST_STATUS
        && 1 <= table::at_place(c.vector, usize::from(c.writer))
        && clock::covers(a, c.vector)
}

fn blank_ok(c: Cell) -> bool
    ensures { result ≡ (blank_cell c).passes }
{
    c.status == 0 && c.vector == [0; PLACES]
}

#[tactic(auto, unfolding(crate::specs::Mirror::Test::cell_test))]
fn cell_ok(m: usize, a: [u16; PLACES], x: usize, c: Cell) -> bool
    ensures { result ≡ (cell_test m a x c).passes }
{
    if c.writer == 0 {
        blank_ok(c)
    } else {
        set_ok(m, a, x, c)
    }
}

// The mark p of o at a desk with the counts a, where the desk has not applied it; and in any case.
fn wait_ok(a: [u16; PLACES], p: u16, o: Open) -> bool
    ensures { result ≡ (waits_test a p o).passes }
{
    p == 0 || (p == HELD) & !clock::ready(a, o.vector, usize::from(o.writer))
}

fn mark_live(a: [u16; PLACES], p: u16, o: Open) -> bool
    ensures { result ≡ (live_mark a p o).passes }
{
    let u = usize::from(o.writer);
    if table::at_place(o.vector, u) <= table::at_place(a, u) {
        (p == DONE) & clock::covers(a, o.vector)
    } else {
        wait_ok(a, p, o)
    }
}

// An entry in use: its mark at desk i, from 0, with the counts a.
fn used_mark_ok(a: [u16; PLACES], i: usize, opens: &Opens, e: usize) -> bool
    requires { (i < places) × (e < entries) }
    ensures { result ≡ (mark_of a i (open_at opens.now e)).passes }
{
    mark_live(a, opens[e].marks[i], opens[e])
}

// (Of a free entry nothing but the writer is read.)
#[tactic(auto, unfolding(crate::specs::Mirror::Parts::used_mark))]
fn mark_ok(a: [u16; PLACES], i: usize, opens: &Opens, e: usize) -> bool
    requires { (i < places) × (e < entries) }
    ensures { result ≡ (used_mark a i (open_at opens.now e)).passes }
{
    opens[e].writer == 0 || used_mark_ok(a, i, opens, e)
}

// The largest mark at each desk, from 0: none past n.
fn most_marks(n: usize) -> [u16; PLACES]
    ensures { result ≡ most_marks n }
{
    array::from_fn(|t| if t < n { DONE } else { 0 })
}

#[tactic(auto, unfolding(crate::specs::Mirror::Parts::limit_test))]
fn limit_ok(most: [u16; PLACES], o: Open) -> bool
    ensures { result ≡ (limit_test most o).passes }
{
    o.writer == 0 || clock::covers(most, o.marks)
}

// Is the cell unset, and all zero?
fn is_unset(c: Cell) -> bool
    ensures { result ≡ (zero_cell c).passes }
{
    c == Cell::UNSET
}

// A core and the two lent arrays, with each desk's own count and, of each desk, the latest write that is not open.
#[derive(Clone, Copy)]
struct Lent<'a> {
    core: &'a Core,
    own: [u16; PLACES],
    gap: [u16; PLACES],
    cells: &'a Cells,
    opens: &'a Opens,
    ghost n_le_places: { core.now.n ≤ places },
}

impl Lent<'_> {
    // Of entry e, whose write is o: its number is k.
    fn due_ok(&self, e: usize, o: Open, k: u16) -> bool
        requires entry_in { e < entries }
        requires o_value { (o ≡ open_at self.now.opens.now e) × (k ≡ entry_number o) }
        ensures { result ≡ (due_test self.now.core.now.n self.now.own o).passes }
    {
        clock::covers(self.own, o.vector)
            && (1 <= k) & !table::all_applied(self.opens, e, self.core.n)
    }

    #[tactic(auto, unfolding(crate::specs::Mirror::Test::used_test))]
    fn used_ok(&self, e: usize, o: Open) -> bool
        requires entry_in { e < entries }
        requires o_value { (o ≡ open_at self.now.opens.now e) × (1 ≤ o.writer) }
        ensures { result ≡ (used_test self.now.core.now.n self.now.core.now.m self.now.own self.now.opens.now e o).passes }
    {
        let u = usize::from(o.writer);
        let k = table::at_place(o.vector, u);
        ranges_ok(self.core.n, self.core.m, o)
            && self.due_ok(e, o, k) & last_of(self.opens, u, k, e)
    }

    #[tactic(auto, unfolding(crate::specs::Mirror::Test::entry_test))]
    fn entry_ok(&self, e: usize) -> bool
        requires { e < entries }
        ensures { result ≡ (entry_test self.now.core.now.n self.now.core.now.m self.now.own self.now.opens.now e).passes }
    {
        let o = self.opens[e];
        o.writer == 0 || self.used_ok(e, o)
    }

    fn entries_ok(&self) -> bool
        ensures { result ≡ (all_entries_test self.now.core.now.n self.now.core.now.m self.now.own self.now.opens.now).passes }
    {
        (0..OPENS).all(|e| self.entry_ok(e))
    }

    // What desk i, from 0, with the counts a must have applied: gap of one in use, nothing past n.
    fn live_ok(&self, a: [u16; PLACES], i: usize) -> bool
        ensures { result ≡ (live_test self.now.core.now.n a self.now.gap i).passes }
    {
        if i < self.core.n {
            clock::covers(a, self.gap)
        } else {
            a == [0; PLACES]
        }
    }

    // Its counts and its clock.
    fn counts_ok(&self, i: usize, d: Desk) -> bool
        requires { i < places }
        ensures { result ≡ (counts_test self.now.core.now.n self.now.own self.now.gap i d).passes }
    {
        let a = d.applied;
        let k = d.clock.at;
        clock::covers(self.own, a) && clock::covers(a, k) && (k[i] == a[i]) & self.live_ok(a, i)
    }

    fn cells_ok(&self, a: [u16; PLACES], i: usize) -> bool
        requires { i < places }
        ensures { result ≡ (all_cells_test self.now.core.now.m a i self.now.cells.now).passes }
    {
        (0..CELLS).all(|x| cell_ok(self.core.m, a, x, self.cells[i * CELLS + x]))
    }

    fn marks_ok(&self, a: [u16; PLACES], i: usize) -> bool
        requires { i < places }
        ensures { result ≡ (used_marks a i self.now.opens.now).passes }
    {
        (0..OPENS).all(|e| mark_ok(a, i, self.opens, e))
    }

    // Desk i: its counts, and its cells and marks where it is in use.
    fn desk_ok(&self, i: usize, d: Desk) -> bool
        requires { i < places }
        ensures { result ≡ (used_desk self.now.core.now.n self.now.core.now.m self.now.own self.now.gap self.now.cells.now self.now.opens.now i d).passes }
    {
        let counts = self.counts_ok(i, d);
        if i < self.core.n {
            counts & self.cells_ok(d.applied, i) & self.marks_ok(d.applied, i)
        } else {
            counts
        }
    }

    fn used_desks_ok(&self) -> bool
        ensures { result ≡ (used_desks self.now.core.now.n self.now.core.now.m self.now.own self.now.gap self.now.cells.now self.now.opens.now self.now.core.now.desks).passes }
    {
        (0..PLACES).all(|i| self.desk_ok(i, self.core.desks[i]))
    }

    fn limits_ok(&self) -> bool
        ensures { result ≡ (all_limits_test (most_marks self.now.core.now.n) self.now.opens.now).passes }
    {
        let most = most_marks(self.core.n);
        (0..OPENS).all(|e| limit_ok(most, self.opens[e]))
    }

    // Is each cell of the desks past n unset, and all zero?
    fn past_unset(&self) -> bool
        ensures { result ≡ (zeros_test self.now.cells.now (self.now.core.now.n * desk_cells)).passes }
    {
        (self.core.n * CELLS..PLACES * CELLS).all(|s| is_unset(self.cells[s]))
    }

    // All desks. Past n the cells are zero, and no mark stands.
    fn desks_ok(&self) -> bool
        ensures { result ≡ (all_desks_test self.now.core.now.n self.now.core.now.m self.now.own self.now.gap self.now.cells.now self.now.opens.now self.now.core.now.desks).passes }
    {
        table::cells_shape(self.cells);
        self.used_desks_ok() & self.past_unset() & self.limits_ok()
    }
}

#[tactic(auto, unfolding(crate::specs::Mirror::Test::own_test))]
fn passes(core: &Core, own: [u16; PLACES], cells: &Cells, opens: &Opens) -> bool
    ensures { result ≡ (own_test core.now.n core.now.m own core.now.desks cells.now opens.now).passes }
{
    if !table::begins(core.n, core.m) {
        return false;
    }
    let gap = gap_counts(own, opens);
    let lent = Lent {
        core,
        own,
        gap,
        cells,
        opens,
    };
    lent.entries_ok() & lent.desks_ok()
}

// Does the table keep the rules? Its model does, its unset cells are all zero, and no name stands in two of its entries.
pub fn keeps_rules(core: Core, cells: &Cells, opens: &Opens) -> bool
    ensures { Says result (SoundTable (table_with core cells.now opens.now)) }
{
    table::desks_shape(core.desks);
    table::cells_shape(cells);
    table::opens_shape(opens);
    let own = own_counts(core.desks);
    passes(&core, own, cells, opens)
}

// The same of a whole table, by value. (Kept: docs/CONTRACTS.md names both.)
pub fn table_keeps_rules(t: Table) -> bool
    ensures { Says result (SoundTable t) }
{
    keeps_rules(t.core, &t.cells, &t.opens)
}
