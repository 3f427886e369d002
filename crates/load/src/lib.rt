// A table read from its saved image (document 01, "Saved image").
#![tactic(auto)]

ghost use Rattle.std.specs.Prelude.{◌≡◌, ◌+◌, ◌*◌, ◌/◌, ◌<◌, ◌≤◌, length, MatchResult};
ghost use Rattle.laws.specs.Says.{Says};
ghost use Rattle.laws.specs.Tab.{tab};
ghost use Rattle.clock.specs.Vectors.{places};
ghost use Rattle.table.specs.Value.{desk_cells, all_cells, entries};
ghost use Rattle.table.specs.Model.{model_of, table_with};
ghost use Rattle.table.specs.Sound.{SoundTable};
ghost use Rattle.table.specs.Beginning.{fresh_table};
ghost use Rattle.block.specs.Limits.{block_bytes, payload_at, payload_bytes, vector_bytes, cell_bytes, open_bytes};
ghost use Rattle.image.specs.Encode.{encode};
ghost use Rattle.image.specs.Decode.{places_in, open_place};
ghost use Rattle.image.specs.Load.{fault_refusal, fault_place, load};
ghost use Rattle.machine.specs.Answer.{number_of};
ghost use Rattle.block.specs.Damage.{Undamaged};
ghost use Rattle.load.specs.Mirror.ImageRead.{word_at, words_from, bytes_from, cell_from, open_from, desk_from, desk_for, cell_for, Fits, SizesOf, CellsRead};
ghost use Rattle.load.specs.Link.EntryEach.{OpensRead};
ghost use Rattle.load.specs.Link.ReadsBack.{ReadAs};
ghost use Rattle.load.specs.Loading.{fault_of, Answers, AnswersInto};
ghost use Rattle.load.specs.Finding.{or_zero, finding_of, finding_numbers};

use block::{BLOCK, PAYLOAD_AT, Test, VECTOR_AT};
use clock::{Clock, PLACES};
use image::{APPLIED_AT, CELLS_AT, COUNT_AT, DESKS_AT};
use std::array;
use table::{CELLS, Cell, Cells, Core, Desk, OPENS, Open, Opens, Table};

// Fields --

fn word_at(b: &[u8], at: usize) -> u16
    requires { at + 2 ≤ length b.now }
    ensures { result ≡ word_at b.now at }
{
    u16::from_le_bytes([b[at], b[at + 1]])
}

// A vector of p places, and p marks: zeros in the others.
fn words_at(b: &[u8], at: usize, p: usize) -> [u16; PLACES]
    requires { (p ≤ places) × (at + vector_bytes p ≤ length b.now) }
    ensures { result ≡ words_from p b.now at }
{
    array::from_fn(|t| if t < p { word_at(b, at + 2 * t) } else { 0 })
}

fn bytes_at(b: &[u8], at: usize, p: usize) -> [u16; PLACES]
    requires { (p ≤ places) × (at + p ≤ length b.now) }
    ensures { result ≡ bytes_from p b.now at }
{
    array::from_fn(|t| if t < p { u16::from(b[at + t]) } else { 0 })
}

fn read_cell(b: &[u8], at: usize, p: usize) -> Cell
    requires { (p ≤ places) × (at + cell_bytes p ≤ length b.now) }
    ensures { result ≡ cell_from p b.now at }
{
    Cell {
        writer: u16::from(b[at]),
        status: u16::from(b[at + 1]),
        vector: words_at(b, at + VECTOR_AT, p),
    }
}

fn read_open(b: &[u8], at: usize, p: usize) -> Open
    requires { (p ≤ places) × (at + open_bytes p ≤ length b.now) }
    ensures { result ≡ open_from p b.now at }
{
    let Cell {
        writer,
        status,
        vector,
    } = read_cell(b, at, p);
    Open {
        writer,
        status,
        cell: u16::from(b[at + 2]),
        vector,
        marks: bytes_at(b, at + block::cell_bytes(p), p),
    }
}

// The block of desk i, from 0.
fn read_desk(b: &[u8], i: usize, p: usize) -> Desk
    requires { (p ≤ places) × ((i < places) × (block_bytes + block_bytes * i + block_bytes ≤ length b.now)) }
    ensures { result ≡ desk_from p b.now i }
{
    let at = BLOCK + (BLOCK * i + APPLIED_AT);
    Desk {
        applied: words_at(b, at, p),
        clock: Clock {
            at: words_at(b, at + 2 * p, p),
        },
    }
}

// The candidate: each field at its place, whatever stands around it --

// The sizes are in range, and the image is as long as they say.
fn sizes_fit(b: &[u8]) -> bool
    ensures { Says result (Fits (places_in b.now) b.now) }
{
    if b.len() < BLOCK {
        return false;
    }
    let n = usize::from(b[DESKS_AT]);
    let m = usize::from(b[CELLS_AT]);
    let count = usize::from(b[COUNT_AT]);
    if !table::begins(n, m) {
        return false;
    }
    count <= OPENS && b.len() == image::length_of(n, m, count)
}

fn desk_or(b: &[u8], p: usize, n: usize, i: usize) -> Desk
    requires { (p ≤ places) × ((n ≤ places) × (block_bytes + block_bytes * n ≤ length b.now)) }
    ensures { result ≡ desk_for p b.now n i }
{
    if i < n {
        return read_desk(b, i, p);
    }
    Desk {
        applied: [0; PLACES],
        clock: Clock { at: [0; PLACES] },
    }
}

fn read_desks(b: &[u8], p: usize, n: usize) -> [Desk; PLACES]
    requires { (p ≤ places) × ((n ≤ places) × (block_bytes + block_bytes * n ≤ length b.now)) }
    ensures { result ≡ tab places (desk_for p b.now n) }
{
    array::from_fn(|i| desk_or(b, p, n, i))
}

// Where a field stands: r of the payload of a block, the q-th after k blocks that follow the desks'.
fn field_place(n: usize, k: usize, q: usize, r: usize) -> usize
    requires { (n ≤ places) × ((k ≤ all_cells) × ((q < desk_cells + entries) × (r < payload_bytes))) }
    ensures { result ≡ block_bytes + (block_bytes * n + (block_bytes * k + (block_bytes * q + (payload_at + r)))) }
{
    BLOCK + (BLOCK * n + (BLOCK * k + (BLOCK * q + (PAYLOAD_AT + r))))
}

// The write's number, and 0 where its writer is no desk.
// Kept: it only tells where the search for a free entry begins, and any would do.
fn number_of(o: Open) -> u16 {
    match usize::from(o.writer) {
        w @ 1..=PLACES => o.vector[w - 1],
        _ => 0,
    }
}

// An image and what every field's place takes: the places of a vector, the sizes, and the blocks to a desk's cells.
#[derive(Clone, Copy)]
struct Layout<'a> {
    b: &'a [u8],
    p: usize,
    n: usize,
    m: usize,
    count: usize,
    c: usize,
}

impl Layout<'_> {
    // Row s of the cells, one of the n desks'.
    fn cell_or(&self, s: usize) -> Cell
        requires { SizesOf self.now.b.now self.now × (s < self.now.n * desk_cells) }
        ensures { result ≡ cell_for self.now.p self.now.b.now self.now.n self.now.m s }
    {
        let i = s / CELLS;
        let x = s % CELLS;
        if x < self.m {
            let w = block::cell_bytes(self.p);
            let room = block::cells_in(self.p);
            let at = field_place(self.n, self.c * i, x / room, w * (x % room));
            return read_cell(self.b, at, self.p);
        }
        Cell::UNSET
    }

    // Into zeros: the rows past the n desks' stay.
    fn read_cells(&self, cells: &mut Cells)
        requires { SizesOf self.now.b.now self.now × (cells.old ≡ (fresh_table 0 0).cells) }
        ensures { CellsRead self.now.p self.now.b.now self.now.n self.now.m cells.new }
    {
        for s in 0..self.n * CELLS {
            cells[s] = self.cell_or(s);
        }
    }

    // Open write j of the image.
    fn open_of(&self, j: usize) -> Open
        requires { SizesOf self.now.b.now self.now × (j < self.now.count) }
        ensures { result ≡ open_from self.now.p self.now.b.now (open_place self.now.p self.now.n self.now.m j) }
    {
        let w = block::open_bytes(self.p);
        let room = block::opens_in(self.p);
        let at = field_place(self.n, self.c * self.n, j / room, w * (j % room));
        read_open(self.b, at, self.p)
    }

    // Each goes into the entry where a search for it begins, or a free one behind that (any free one would do).
    fn read_opens(&self, opens: &mut Opens)
        requires { SizesOf self.now.b.now self.now × (opens.old ≡ (fresh_table 0 0).opens) }
        ensures { OpensRead self.now.p self.now.b.now self.now.n self.now.m self.now.count opens.new }
    {
        for j in 0..self.count {
            let o = self.open_of(j);
            let Some(e) = table::find_free(opens, usize::from(o.writer), number_of(o)) else {
                return;
            };
            opens[e] = o;
        }
    }
}

// The sizes that an image tells of itself.
fn layout_of(b: &[u8]) -> Layout<'_>
    requires { Fits (places_in b.now) b.now }
    ensures { SizesOf b.now result × (result.b.now ≡ b.now) }
{
    let n = usize::from(b[DESKS_AT]);
    let m = usize::from(b[CELLS_AT]);
    let p = block::places_for(n);
    Layout {
        b,
        p,
        n,
        m,
        count: usize::from(b[COUNT_AT]),
        c: image::per_desk(p, m),
    }
}

// The table that an image seems to hold, into arrays of zeros.
fn read_table(b: &[u8], cells: &mut Cells, opens: &mut Opens) -> Core
    requires { Fits (places_in b.now) b.now × ((cells.old ≡ (fresh_table 0 0).cells) × (opens.old ≡ (fresh_table 0 0).opens)) }
    ensures { ReadAs (places_in b.now) b.now (table_with result cells.new opens.new) }
{
    let z = layout_of(b);
    let desks = read_desks(b, z.p, z.n);
    z.read_cells(cells);
    z.read_opens(opens);
    Core {
        n: z.n,
        m: z.m,
        desks,
    }
}

// Does a table keep the rules, and is b its image?
fn saved_as(core: Core, cells: &Cells, opens: &Opens, b: &[u8]) -> bool
    ensures { Says result (SoundTable (table_with core cells.now opens.now) × (encode (model_of (table_with core cells.now opens.now)) ≡ b.now)) }
{
    rules::keeps_rules(core, cells, opens) && image::is_image(core, cells, opens, b)
}

// Why an image is refused: 15, 12 with the place of the first block whose check is wrong, or 13 with that of the first block that cannot stand where it
// is, or the block count.
#[derive(Clone, Copy, Debug, PartialEq, Eq)]
pub enum Fault {
    WrongLength,
    Damaged(usize),
    Broken(usize),
}

impl Fault {
    // The number of the refusal.
    pub fn number(self) -> u8
        ensures { result ≡ number_of (fault_refusal (fault_of self)) }
    {
        match self {
            Fault::WrongLength => 15,
            Fault::Damaged(_) => 12,
            Fault::Broken(_) => 13,
        }
    }

    // Its place, and 0 where there is none.
    pub fn place(self) -> usize
        ensures { result ≡ or_zero (fault_place (fault_of self)) }
    {
        match self {
            Fault::WrongLength => 0,
            Fault::Damaged(k) | Fault::Broken(k) => k,
        }
    }
}

// The length, and then the checks.
fn undamaged(b: &[u8]) -> Result<(), Fault>
    ensures { MatchResult result (λ _. Undamaged b.now) (λ f. Answers b.now (Err f)) }
{
    if !block::whole_blocks(b) {
        return Err(Fault::WrongLength);
    }
    let wrong = block::first_not(b, Test::Check);
    if wrong < b.len() / BLOCK {
        return Err(Fault::Damaged(wrong));
    }
    Ok(())
}

// The length, then the checks, then where each block stands; then the fields are read, the rules tested, and the image of what was read compared. The arrays come as zeros,
// and a refusal leaves them so.
pub fn load_into(b: &[u8], cells: &mut Cells, opens: &mut Opens) -> Result<Core, Fault>
    requires { (cells.old ≡ (fresh_table 0 0).cells) × (opens.old ≡ (fresh_table 0 0).opens) }
    ensures { AnswersInto b.now result cells.new opens.new }
{
    undamaged(b)?;
    let misplaced = block::first_not(b, Test::Place);
    if misplaced < b.len() / BLOCK {
        return Err(Fault::Broken(misplaced));
    }
    if !sizes_fit(b) {
        return Err(Fault::Broken(misplaced));
    }
    let core = read_table(b, cells, opens);
    if saved_as(core, cells, opens, b) {
        return Ok(core);
    }
    // Zeros again, after what was no table.
    cells.fill(Cell::UNSET);
    opens.fill(Open::FREE);
    Err(Fault::Broken(misplaced))
}

// The same with the table by value. (Kept: docs/CONTRACTS.md names both.)
pub fn load(b: &[u8]) -> Result<Table, Fault>
    ensures { Answers b.now result }
{
    let mut cells = [Cell::UNSET; PLACES * CELLS];
    let mut opens = [Open::FREE; OPENS];
    let core = load_into(b, &mut cells, &mut opens)?;
    Ok(Table { core, cells, opens })
}

// The sizes of a table: desks, cells, open writes.
#[derive(Clone, Copy, Debug, PartialEq, Eq)]
pub struct Sizes {
    pub n: usize,
    pub m: usize,
    pub open: usize,
}

// What there is to tell of an image: the sizes of its table, or why it is refused.
pub fn inspect(b: &[u8]) -> Result<Sizes, Fault>
    ensures { finding_numbers result ≡ finding_of (load b.now) }
{
    let mut cells = [Cell::UNSET; PLACES * CELLS];
    let mut opens = [Open::FREE; OPENS];
    load_into(b, &mut cells, &mut opens)?;
    let z = layout_of(b);
    Ok(Sizes {
        n: z.n,
        m: z.m,
        open: z.count,
    })
}
