// The causal clock of a desk, and when a write is ready.
#![tactic(auto)]

ghost use Rattle.std.specs.Prelude.{◌≡◌};
ghost use Rattle.machine.specs.Rules.{In};
ghost use Rattle.machine.specs.Steps.{first_unapplied, failing};
ghost use Rattle.clock.specs.Vectors.{places, place, join_clock, raise_clock};
ghost use Rattle.clock.specs.Readiness.{fails_at, wait_of, ready_at, covers_all};

use std::array;

// The places of a vector: one for each desk.
pub const PLACES: usize = 16;
// The largest number of a write.
pub const MOST_WRITES: u16 = 65535;

#[derive(Clone, Copy, Debug, PartialEq, Eq)]
pub struct Clock {
    pub at: [u16; PLACES],
}

// The write that a write waits for: of the smallest desk whose place fails, its first one that is not applied here. The number is a count
// plus 1: where the counts are no table's it may pass MOST_WRITES.
#[derive(Clone, Copy, Debug, PartialEq, Eq)]
pub struct Missing {
    pub desk: usize,
    pub number: usize,
}

impl Clock {
    // The larger, place by place, of the clock and a vector.
    pub fn join(self, v: [u16; PLACES]) -> Clock
        ensures { result ≡ join_clock self v }
    {
        Clock {
            at: array::from_fn(|t| self.at[t].max(v[t])),
        }
    }

    // Desk u's place one higher, where it is a place and below the largest number; else the clock as it came.
    pub fn raise(self, u: usize) -> Clock
        ensures { result ≡ raise_clock self u }
    {
        let mut at = self.at;
        if !(1..=PLACES).contains(&u) || at[u - 1] == MOST_WRITES {
            return self;
        }
        at[u - 1] += 1;
        Clock { at }
    }
}

// Does desk t's place fail (t from 1)? a: the counts; v: the vector of a write of desk u.
fn fails(a: [u16; PLACES], v: [u16; PLACES], u: usize, t: usize) -> bool
    requires { In places t }
    ensures { result ≡ fails_at a v u t }
{
    let have = u32::from(a[t - 1]);
    let want = u32::from(v[t - 1]);
    if t == u {
        have + 1 != want
    } else {
        have < want
    }
}

// The number of desk t's first write that is not applied where the counts are a.
fn first_unapplied(a: [u16; PLACES], t: usize) -> usize
    requires { In places t }
    ensures { result ≡ (first_unapplied (place a) t).number }
{
    usize::from(a[t - 1]) + 1
}

// What is missing; none: the write is ready.
pub fn readiness(a: [u16; PLACES], v: [u16; PLACES], u: usize) -> Option<Missing>
    ensures { wait_of result ≡ failing places (place a) u (place v) }
{
    for desk in 1..=PLACES {
        if fails(a, v, u, desk) {
            return Some(Missing {
                desk,
                number: first_unapplied(a, desk),
            });
        }
    }
    None
}

// Are the counts at least the vector at every place? (No early exit: this is asked of every held write.)
pub fn covers(a: [u16; PLACES], v: [u16; PLACES]) -> bool
    ensures { result ≡ covers_all a v }
{
    a.iter()
        .zip(v.iter())
        .fold(true, |all, (have, want)| all & (want <= have))
}

// Is a write of desk u with vector v ready where the counts are a?
pub fn ready(a: [u16; PLACES], v: [u16; PLACES], u: usize) -> bool
    ensures { result ≡ ready_at a v u }
{
    if !(1..=PLACES).contains(&u) {
        return covers(a, v);
    }
    let at = u - 1;
    if u32::from(a[at]) + 1 != u32::from(v[at]) {
        return false;
    }
    let mut rest = v;
    rest[at] = 0;
    covers(a, rest)
}
