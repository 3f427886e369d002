// The saved image (document 01): a table as blocks of 512 bytes, and a table read from them.
#![tactic(auto)]

ghost use Rattle.std.specs.Prelude.{◌≡◌, [], ◌∷◌, ℕ, suc, ◌+◌, ◌-◌, ◌*◌, ◌<◌, ◌≤◌, min, length, replicate};
ghost use Rattle.std.proofs.Math.Option.{none};
ghost use Rattle.std.proofs.lemmas.List.Edits.{sets};
ghost use Rattle.laws.specs.Cat.{cat};
ghost use Rattle.laws.specs.Says.{Says};
ghost use Rattle.clock.specs.Vectors.{places, place};
ghost use Rattle.block.specs.Limits.{broad, image_bytes, places_for, payload_at, payload_bytes, block_bytes, open_bytes, cells_in, opens_in, row_most, opens_most};
ghost use Rattle.block.specs.Block.{block_of};
ghost use Rattle.image.specs.Encode.{bytes_of_desk, per_desk, blocks_of, encode};
ghost use Rattle.image.specs.Mirror.Filled.{Filled};
ghost use Rattle.image.specs.Mirror.RawBytes.{open_raw, SmallOpen};
ghost use Rattle.image.specs.Mirror.TableBytes.{CellsFit, cell_piece, OrderFits, open_piece};
ghost use Rattle.machine.specs.Table.{most_writes};
ghost use Rattle.machine.specs.Rules.{In};
ghost use Rattle.table.specs.Value.{desk_cells, entries};
ghost use Rattle.table.specs.Model.{applied_m, opens_m, model_of, table_with};
ghost use Rattle.table.specs.Sound.{SoundTable};
ghost use Rattle.image.specs.Link.OrderFromCounts.{low, counted};
ghost use Rattle.image.specs.Mirror.EntryOrder.{Listed, InOrder, Known};
ghost use Rattle.image.specs.Link.FieldPlaces.{block_at};
ghost use Rattle.image.specs.Link.SavedIsImage.{Planned, Saved};
ghost use Rattle.image.specs.Saving.{Saves, saving_of};

use block::{
    BLOCK, BROAD, CELL_KIND, CHECK, DESK_KIND, OPEN_KIND, PAYLOAD_AT, SIZE_KIND, VECTOR_AT,
};
use clock::PLACES;
use table::{CELLS, Cell, Cells, Core, Desk, OPENS, Open, Opens, Table};

// What the payload of kind 1 begins with: desks, cells, open writes.
pub const DESKS_AT: usize = PAYLOAD_AT;

pub const CELLS_AT: usize = PAYLOAD_AT + 1;

pub const COUNT_AT: usize = PAYLOAD_AT + 2;
// Where a desk's counts stand in its block.
pub const APPLIED_AT: usize = PAYLOAD_AT + VECTOR_AT;
// The largest image: a cell and an open write of edition 2, how many stand in a block, and all of it in bytes.
const BROAD_CELL: usize = VECTOR_AT + 2 * BROAD;

const BROAD_CELLS: usize = (CHECK - PAYLOAD_AT) / BROAD_CELL;

const BROAD_OPENS: usize = (CHECK - PAYLOAD_AT) / (BROAD_CELL + BROAD);

pub const IMAGE: usize = BLOCK
    * (1 + BROAD
        + (CELLS + BROAD_CELLS - 1) / BROAD_CELLS * BROAD
        + (OPENS + BROAD_OPENS - 1) / BROAD_OPENS);

// Room for any image.
pub fn room() -> [u8; IMAGE]
    ensures { result ≡ replicate (image_bytes broad) 0 }
{
    [0u8; IMAGE]
}

// A block of each kind --

fn put_open(b: &mut [u8; BLOCK], at: usize, o: Open, p: usize)
    requires { (p ≤ places) × ((at + open_bytes p ≤ block_bytes) × SmallOpen o) }
    ensures { b.new ≡ sets b.old at (open_raw p o) }
{
    block::put_record(b, at, o.writer, o.status, o.cell, o.vector, p);
    block::put_marks(b, at + block::cell_bytes(p), o.marks, p);
}

// The block of desk k, from 1: it stands at place k.
fn desk_block(p: usize, k: u16, d: Desk) -> [u8; BLOCK]
    requires { (p ≤ places) × (k < 256) }
    ensures { result ≡ block_of p 2 k (bytes_of_desk p k (place d.applied) (place d.clock.at)) }
{
    let mut b = [0u8; BLOCK];
    block::put_head(&mut b, p, DESK_KIND, k);
    block::put_record(&mut b, PAYLOAD_AT, k, 0, 0, d.applied, p);
    block::put_words(&mut b, PAYLOAD_AT + block::cell_bytes(p), d.clock.at, p);
    block::seal(&mut b);
    b
}

// The block of the sizes. (Kept: `as` where a number fits, here and below, since TryFrom is for what may not.)
fn size_block(p: usize, n: u16, m: u16, count: u16) -> [u8; BLOCK]
    requires { (n < 256) × ((m < 256) × (count < 256)) }
    ensures { result ≡ block_of p 1 0 (n ∷ m ∷ count ∷ []) }
{
    let mut b = [0u8; BLOCK];
    block::put_head(&mut b, p, SIZE_KIND, 0);
    b[DESKS_AT] = n as u8;
    b[CELLS_AT] = m as u8;
    b[COUNT_AT] = count as u8;
    block::seal(&mut b);
    b
}

// A block of records of w bytes, as many as told: `put` stores record j at its place.
fn records_block<F: Fn(&mut [u8; BLOCK], usize, usize)>(
    p: usize,
    kind: u8,
    at: u16,
    w: usize,
    count: usize,
    put: F,
) -> [u8; BLOCK]
    requires room { w * count ≤ payload_bytes }
    requires callable { (j : ℕ) (b : _) → j < count → F.pre put b (payload_at + w * j) j }
    ensures { Filled F.Fn put p kind at w count result }
{
    let mut b = [0u8; BLOCK];
    block::put_head(&mut b, p, kind, at);
    for j in 0..count {
        put(&mut b, PAYLOAD_AT + w * j, j);
    }
    block::seal(&mut b);
    b
}

// Block q of the cells of desk i, from 0.
fn cell_block(p: usize, at: u16, cells: &Cells, i: usize, q: usize) -> [u8; BLOCK]
    requires { (p ≤ places) × ((i < places) × ((q < row_most p) × CellsFit p cells.now)) }
    ensures { result ≡ block_of p 3 at (cat (cell_piece p cells.now i q) (cells_in p)) }
{
    let room = block::cells_in(p);
    let first = room * q;
    let some = room.min(CELLS - first);
    records_block(p, CELL_KIND, at, block::cell_bytes(p), some, |b, at, j| {
        let c = cells[i * CELLS + (first + j)];
        block::put_record(b, at, c.writer, c.status, 0, c.vector, p);
    })
}

// Block q of the open writes.
fn open_block(
    p: usize,
    at: u16,
    opens: &Opens,
    order: &[usize; OPENS],
    count: usize,
    q: usize,
) -> [u8; BLOCK]
    requires { (p ≤ places) × ((q < opens_most p) × OrderFits opens.now order.now count) }
    ensures { result ≡ block_of p 4 at (cat (open_piece p opens.now order.now count q) (opens_in p)) }
{
    let room = block::opens_in(p);
    let first = room * q;
    let some = room.min(count.saturating_sub(first));
    records_block(p, OPEN_KIND, at, block::open_bytes(p), some, |b, at, j| {
        let o = opens[order[first + j]];
        put_open(b, at, o, p);
    })
}

// Blocks, one after the other --

// How the blocks of a table stand: the places of a vector, the open writes, the blocks to a desk's cells, all blocks before the open writes, and
// all blocks.
#[derive(Clone, Copy)]
struct Plan {
    p: usize,
    count: usize,
    row: usize,
    ahead: usize,
    total: usize,
}

// The parts of a table as they are saved: the entries of its open writes in their order, and how its blocks stand.
#[derive(Clone, Copy)]
struct Lent<'a> {
    core: &'a Core,
    cells: &'a Cells,
    opens: &'a Opens,
    order: &'a [usize; OPENS],
    plan: Plan,
}

impl Lent<'_> {
    // The block at place k: the sizes, the desks, then their cells, and then the open writes.
    fn block_at(&self, k: usize) -> [u8; BLOCK]
        requires { Planned (table_with self.now.core.now self.now.cells.now self.now.opens.now) self.now.order.now self.now.plan × (k < self.now.plan.total) }
        ensures { result ≡ block_at self.now.plan.p (model_of (table_with self.now.core.now self.now.cells.now self.now.opens.now)) k }
    {
        let plan = self.plan;
        let n = self.core.n;
        if k == 0 {
            return size_block(plan.p, n as u16, self.core.m as u16, plan.count as u16);
        }
        if k <= n {
            return desk_block(plan.p, k as u16, self.core.desks[k - 1]);
        }
        if k < plan.ahead {
            let q = k - (1 + n);
            return cell_block(plan.p, k as u16, self.cells, q / plan.row, q % plan.row);
        }
        open_block(
            plan.p,
            k as u16,
            self.opens,
            self.order,
            plan.count,
            k - plan.ahead,
        )
    }

    fn save(&self, out: &mut [u8])
        requires { Planned (table_with self.now.core.now self.now.cells.now self.now.opens.now) self.now.order.now self.now.plan × (block_bytes * self.now.plan.total ≤ length out.old) }
        ensures { out.new ≡ sets out.old 0 (encode (model_of (table_with self.now.core.now self.now.cells.now self.now.opens.now))) }
    {
        for k in 0..self.plan.total {
            block::copy(&self.block_at(k), BLOCK, out, BLOCK * k);
        }
    }

    // Are its blocks those of b, which is as long?
    fn same(&self, b: &[u8]) -> bool
        requires { Planned (table_with self.now.core.now self.now.cells.now self.now.opens.now) self.now.order.now self.now.plan × (length b.now ≡ block_bytes * self.now.plan.total) }
        ensures { Says result (encode (model_of (table_with self.now.core.now self.now.cells.now self.now.opens.now)) ≡ b.now) }
    {
        self.plan.total == block::first_failing(b, |x, k| block::same(x, &self.block_at(k)))
    }
}

// The open writes, by writer then number --

// Desk u's own count, u from 0.
fn own_count(desks: [Desk; PLACES], u: usize) -> u16
    requires { u < places }
    ensures { result ≡ applied_m desks (suc u) (suc u) }
{
    desks[u].applied[u]
}

// How many of desk u's writes every desk has applied, u from 0.
fn lowest(desks: [Desk; PLACES], n: usize, u: usize) -> u16
    requires { (n ≤ places) × (u < places) }
    ensures { result ≡ low n (applied_m desks) (suc u) }
{
    let mut r = own_count(desks, u);
    for i in 0..n {
        r = r.min(desks[i].applied[u]);
    }
    r
}

// How many writes are open.
fn open_count(desks: [Desk; PLACES], n: usize) -> usize
    requires { n ≤ places }
    ensures { (result ≡ length (counted n (applied_m desks))) × (result ≤ places * (most_writes + 1)) }
{
    let mut r = 0;
    for u in 0..n {
        r += usize::from(own_count(desks, u) - lowest(desks, n, u));
    }
    r
}

// The entries of desk u's writes lo + 1 to own, u from 1, put into the order from place p on.
fn order_of(opens: &Opens, u: usize, lo: u16, own: u16, order: &mut [usize], p: usize) -> usize
    requires room { (In places u) × ((lo ≤ own) × (p + (own - lo) ≤ length order.old)) }
    requires open_numbers { (k : ℕ) → lo < k → k ≤ own → opens_m opens.now u k ≡ none → ⊥ }
    ensures { Listed opens.now u lo own p order.old order.new result }
{
    let mut at = p;
    for k in lo..own {
        let Some(e) = table::find(opens, u, k + 1) else {
            return at;
        };
        order[at] = e;
        at += 1;
    }
    at
}

// The entries of all open writes in their order, and how many there are.
fn order_all(opens: &Opens, desks: [Desk; PLACES], n: usize, order: &mut [usize]) -> usize
    requires { (n ≤ places) × ((length order.old ≡ entries) × Known n desks opens.now) }
    ensures { InOrder opens.now (counted n (applied_m desks)) order.new result }
{
    let mut count = 0;
    for u in 0..n {
        count = order_of(
            opens,
            u + 1,
            lowest(desks, n, u),
            own_count(desks, u),
            order,
            count,
        );
    }
    count
}

// Saving --

// Blocks to a desk's cells.
pub fn per_desk(p: usize, m: usize) -> usize
    requires { (p ≤ places) × (m ≤ desk_cells) }
    ensures { (result ≡ per_desk p m) × (result ≤ desk_cells) }
{
    block::blocks_for(block::cells_in(p), m)
}

// Blocks before the open writes, where a desk's cells take c.
fn cells_end(n: usize, c: usize) -> usize
    requires { (n ≤ places) × (c ≤ desk_cells) }
    ensures { (result ≡ 1 + n + c * n) × (result ≤ 1 + places + desk_cells * places) }
{
    1 + n + c * n
}

pub fn length_of(n: usize, m: usize, count: usize) -> usize
    requires { (n ≤ places) × ((m ≤ desk_cells) × (count ≤ places * (most_writes + 1))) }
    ensures { result ≡ block_bytes * blocks_of (places_for n) n m count }
{
    let p = block::places_for(n);
    let c = per_desk(p, m);
    let k = cells_end(n, c);
    BLOCK * (k + block::blocks_for(block::opens_in(p), count))
}

// How long the image of a table is that keeps the rules: the counts tell.
pub fn image_length(core: Core) -> usize
    requires { (core.n ≤ places) × (core.m ≤ desk_cells) }
    ensures { result ≡ block_bytes * blocks_of (places_for core.n) core.n core.m (length (counted core.n (applied_m core.desks))) }
{
    length_of(core.n, core.m, open_count(core.desks, core.n))
}

// The order of the open writes of a table that keeps the rules, and how its blocks stand. (The cells are there for the contract alone.)
fn planned(core: Core, cells: &Cells, opens: &Opens, order: &mut [usize; OPENS]) -> Plan
    requires { SoundTable (table_with core cells.now opens.now) }
    ensures { Planned (table_with core cells.now opens.now) order.new result }
{
    let count = order_all(opens, core.desks, core.n, order);
    let p = block::places_for(core.n);
    let row = per_desk(p, core.m);
    let ahead = cells_end(core.n, row);
    let total = ahead + block::blocks_for(block::opens_in(p), count);
    Plan {
        p,
        count,
        row,
        ahead,
        total,
    }
}

// The image of a table that keeps the rules, into a buffer that is long enough. The result is the image's length.
pub fn save_parts(core: Core, cells: &Cells, opens: &Opens, out: &mut [u8]) -> usize
    requires sound { SoundTable (table_with core cells.now opens.now) }
    requires room { length (encode (model_of (table_with core cells.now opens.now))) ≤ length out.old }
    ensures { Saved (model_of (table_with core cells.now opens.now)) out.old out.new result }
{
    let mut order = [0usize; OPENS];
    let plan = planned(core, cells, opens, &mut order);
    let lent = Lent {
        core: &core,
        cells,
        opens,
        order: &order,
        plan,
    };
    lent.save(out);
    BLOCK * plan.total
}

// Is b the image of a table that keeps the rules?
pub fn is_image(core: Core, cells: &Cells, opens: &Opens, b: &[u8]) -> bool
    requires { SoundTable (table_with core cells.now opens.now) }
    ensures { Says result (encode (model_of (table_with core cells.now opens.now)) ≡ b.now) }
{
    let mut order = [0usize; OPENS];
    let plan = planned(core, cells, opens, &mut order);
    let lent = Lent {
        core: &core,
        cells,
        opens,
        order: &order,
        plan,
    };
    b.len() == BLOCK * plan.total && lent.same(b)
}

// Why a table is not saved: refusal 13 or 14.
#[derive(Clone, Copy, Debug, PartialEq, Eq)]
pub enum Unsaved {
    Broken,
    Short,
}

// A table value saved into a lent buffer: the rules first, then the buffer's length. The answer is the image's length. (Kept beside `save_parts`: docs/CONTRACTS.md names both.)
pub fn save(t: Table, out: &mut [u8]) -> Result<usize, Unsaved>
    ensures { Saves t out.old out.new (saving_of result) }
{
    if !rules::keeps_rules(t.core, &t.cells, &t.opens) {
        return Err(Unsaved::Broken);
    }
    if out.len() < image_length(t.core) {
        return Err(Unsaved::Short);
    }
    Ok(save_parts(t.core, &t.cells, &t.opens, out))
}
