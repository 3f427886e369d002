// A block of the saved image (document 01): its layout, its check, and its fields.
#![tactic(auto)]

ghost use Rattle.std.specs.Prelude.{◌≡◌, ◌∷◌, ℕ, ◌+◌, ◌*◌, ◌/◌, ◌<◌, ◌≤◌, min, get_or, length, take};
ghost use Rattle.std.proofs.lemmas.List.Edits.{sets};
ghost use Rattle.laws.specs.Says.{Says};
ghost use Rattle.laws.specs.FirstNot.{FirstNot};
ghost use Rattle.clock.specs.Vectors.{places, place};
ghost use Rattle.block.specs.Limits.{places_for, edition_of, block_bytes, check_at, payload_bytes, vector_bytes, after_vector};
ghost use Rattle.block.specs.Limits.{cell_bytes, open_bytes, cells_in, opens_in, blocks_for};
ghost use Rattle.block.specs.Check.{check_of};
ghost use Rattle.block.specs.Block.{word, long, vector_words, mark_bytes};
ghost use Rattle.block.specs.Damage.{Right, WholeBlocks, blocks_in};
ghost use Rattle.block.specs.Stands.{KindStands, Stands};
ghost use Rattle.block.specs.Mirror.BlockTests.{Passes, PassesAt, FirstFails};
ghost use Rattle.block.specs.Mirror.Block.{head};
ghost use Rattle.machine.specs.Table.{most_writes};

use clock::PLACES;

// Bytes to a block.
pub const BLOCK: usize = 512;
// Where its payload stands.
pub const PAYLOAD_AT: usize = 4;
// The kinds of a block.
// Kept: bytes of the format, no enum. `put_head` promises to put any, and an image may tell any; each enum would be turned into its byte.
pub const SIZE_KIND: u8 = 1;

pub const DESK_KIND: u8 = 2;

pub const CELL_KIND: u8 = 3;

pub const OPEN_KIND: u8 = 4;
// The editions. (Kept: bytes, as the kinds.)
const EDITION_1: u8 = 1;

const EDITION_2: u8 = 2;
// Where its check stands.
pub const CHECK: usize = 508;
// Where the vector of a desk, a cell and an open write stands: behind 4 bytes.
pub const VECTOR_AT: usize = 4;
// The places of a vector in edition 1, and in edition 2.
const NARROW: usize = 8;

pub const BROAD: usize = 16;

// The layout --

// The places of a vector in the image of a table of n desks.
pub fn places_for(n: usize) -> usize
    ensures { (result ≡ places_for n) × (result ≤ places) }
{
    if n <= NARROW { NARROW } else { BROAD }
}

// The edition where a vector has p places.
fn edition_of(p: usize) -> u8
    ensures { result ≡ edition_of p }
{
    if p <= NARROW { EDITION_1 } else { EDITION_2 }
}

// Bytes to a cell; and where a desk's clock and an open write's marks stand, behind a vector.
pub fn cell_bytes(p: usize) -> usize
    requires { p ≤ places }
    ensures { result ≡ cell_bytes p }
{
    VECTOR_AT + 2 * p
}

// Bytes to an open write.
pub fn open_bytes(p: usize) -> usize
    requires { p ≤ places }
    ensures { result ≡ open_bytes p }
{
    cell_bytes(p) + p
}

// How many of w bytes stand in a block.
fn fit_in(w: usize) -> usize
    requires { (1 ≤ w) × (w ≤ payload_bytes) }
    ensures { (result ≡ payload_bytes / w) × ((1 ≤ result) × (result ≤ payload_bytes)) }
{
    (CHECK - PAYLOAD_AT) / w
}

// Cells to a block.
pub fn cells_in(p: usize) -> usize
    requires { p ≤ places }
    ensures { (result ≡ cells_in p) × ((1 ≤ result) × (result ≤ payload_bytes)) }
{
    fit_in(cell_bytes(p))
}

// Open writes to a block.
pub fn opens_in(p: usize) -> usize
    requires { p ≤ places }
    ensures { (result ≡ opens_in p) × ((1 ≤ result) × (result ≤ payload_bytes)) }
{
    fit_in(open_bytes(p))
}

// The blocks that x of them take, c to a block.
pub fn blocks_for(c: usize, x: usize) -> usize
    requires { (1 ≤ c) × ((c ≤ payload_bytes) × (x ≤ places * (most_writes + 1))) }
    ensures { (result ≡ blocks_for c x) × (result ≤ x) }
{
    (x + (c - 1)) / c
}

// The check of a block --

// As the handbook draws it: from byte 507 back to byte 0 the sum so far, and the sum of those sums; plus one at the end.
fn check(b: &[u8]) -> u32
    requires { check_at ≤ length b.now }
    ensures { result ≡ check_of b.now }
{
    let mut sum_so_far: u32 = 0;
    let mut sum_of_sums: u32 = 0;
    for j in (0..CHECK).rev() {
        sum_so_far += u32::from(b[j]);
        sum_of_sums += sum_so_far;
    }
    sum_of_sums + 1
}

// The check stored, which ends a block.
pub fn seal(b: &mut [u8; BLOCK])
    ensures { b.new ≡ sets b.old check_at (long (check_of b.old)) }
{
    let c = check(b);
    b[CHECK..].copy_from_slice(&c.to_le_bytes());
}

// Is the check that stands in a block its own?
pub fn right(b: &[u8; BLOCK]) -> bool
    ensures { Says result (Right b.now) }
{
    u32::from_le_bytes([b[CHECK], b[CHECK + 1], b[CHECK + 2], b[CHECK + 3]]) == check(b)
}

// Can a block of this kind stand at place k: the sizes first, and no others behind them?
fn kind_stands(k: usize, kind: u8) -> bool
    ensures { Says result (KindStands k kind) }
{
    match k {
        0 => kind == SIZE_KIND,
        _ => DESK_KIND <= kind && kind <= OPEN_KIND,
    }
}

// Can a block stand at place k, by the place, edition and kind that it tells?
pub fn stands(b: &[u8; BLOCK], k: usize) -> bool
    ensures { Says result (Stands k b.now) }
{
    usize::from(u16::from_le_bytes([b[2], b[3]])) == k
        && EDITION_1 <= b[1]
        && b[1] <= EDITION_2
        && kind_stands(k, b[0])
}

// The place of the first block that fails a test that is handed in, or the block count.
pub fn first_failing<F: Fn(&[u8; BLOCK], usize) -> bool>(b: &[u8], test: F) -> usize
    requires { (k : ℕ) (x : _) → k < blocks_in b.now → F.pre test x k }
    ensures { FirstFails F.Fn test b.now (blocks_in b.now) result }
{
    let (blocks, _) = b.as_chunks::<BLOCK>();
    for (k, block) in blocks.iter().enumerate() {
        if !test(block, k) {
            return k;
        }
    }
    blocks.len()
}

// What is asked of each block. (Kept: told by name, since a test that is handed in has to be callable, and `first_not` takes anything.)
#[derive(Clone, Copy, Debug, PartialEq, Eq)]
pub enum Test {
    Check,
    Place,
}

// The place of the first block that fails the test, or the block count.
pub fn first_not(b: &[u8], test: Test) -> usize
    ensures { FirstNot (PassesAt (Passes test) b.now) (blocks_in b.now) result }
{
    match test {
        Test::Check => first_failing(b, |x, _| right(x)),
        Test::Place => first_failing(b, stands),
    }
}

// Is the length a nonzero multiple of 512? (Else 15.)
pub fn whole_blocks(b: &[u8]) -> bool
    ensures { Says result (WholeBlocks b.now) }
{
    b.len() != 0 && b.len() % BLOCK == 0
}

// Fields of a block --

// A number of 16 bits, low byte first.
fn put_word(b: &mut [u8; BLOCK], at: usize, x: u16)
    requires { at + 2 ≤ block_bytes }
    ensures { b.new ≡ sets b.old at (word x) }
{
    b[at..at + 2].copy_from_slice(&x.to_le_bytes());
}

// The first p places of a vector, and of marks.
// Kept: two loops of a line. One function of both would take the width and the store of a number.
pub fn put_words(b: &mut [u8; BLOCK], at: usize, v: [u16; PLACES], p: usize)
    requires { (p ≤ places) × (at + vector_bytes p ≤ block_bytes) }
    ensures { b.new ≡ sets b.old at (vector_words p (place v)) }
{
    for t in 0..p {
        put_word(b, at + 2 * t, v[t]);
    }
}

pub fn put_marks(b: &mut [u8; BLOCK], at: usize, v: [u16; PLACES], p: usize)
    requires room { (p ≤ places) × (at + p ≤ block_bytes) }
    requires bytes { (t : ℕ) → get_or v t 0 < 256 }
    ensures { b.new ≡ sets b.old at (mark_bytes p (place v)) }
{
    for t in 0..p {
        b[at + t] = v[t] as u8;
    }
}

// What begins with 4 bytes and a vector: a desk, a cell, an open write. (Kept: `as`, since the numbers fit, and TryFrom is for what may not.)
pub fn put_record(
    b: &mut [u8; BLOCK],
    at: usize,
    x: u16,
    y: u16,
    z: u16,
    v: [u16; PLACES],
    p: usize,
)
    requires { (p ≤ places) × ((at + after_vector p ≤ block_bytes) × ((x < 256) × ((y < 256) × (z < 256)))) }
    ensures { b.new ≡ sets b.old at (x ∷ y ∷ z ∷ 0 ∷ vector_words p (place v)) }
{
    b[at] = x as u8;
    b[at + 1] = y as u8;
    b[at + 2] = z as u8;
    b[at + 3] = 0;
    put_words(b, at + VECTOR_AT, v, p);
}

// Kind, edition and place, where a vector has p places.
pub fn put_head(b: &mut [u8; BLOCK], p: usize, kind: u8, at: u16)
    ensures { b.new ≡ sets b.old 0 (head (edition_of p) kind at) }
{
    b[0] = kind;
    b[1] = edition_of(p);
    put_word(b, 2, at);
}

// Bytes --

// The first len bytes of a part, put into the buffer from place at on.
pub fn copy(part: &[u8], len: usize, out: &mut [u8], at: usize)
    requires { (len ≤ length part.now) × (at + len ≤ length out.old) }
    ensures { out.new ≡ sets out.old at (take len part.now) }
{
    out[at..at + len].copy_from_slice(&part[..len]);
}

// Are two parts of one length the same bytes?
pub fn same(a: &[u8], b: &[u8]) -> bool
    requires { length a.now ≡ length b.now }
    ensures { Says result (a.now ≡ b.now) }
{
    // Kept: by `==`, which has ways out in the middle, the largest image is loaded by 2 in a hundred instructions more.
    let mut same = true;
    for i in 0..a.len() {
        same &= a[i] == b[i];
    }
    same
}
