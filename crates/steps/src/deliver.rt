// Deliver: a write is held or applied, and then every held write that becomes ready.
ghost use Rattle.std.specs.Prelude.{◌<◌, ◌≤◌};
ghost use Rattle.clock.specs.Vectors.{places, place};
ghost use Rattle.machine.specs.Rules.{In};
ghost use Rattle.table.specs.Value.{desk_cells, entries, open_at};
ghost use Rattle.table.specs.Link.OpensModel.{Unique};
ghost use Rattle.steps.specs.Link.Cascade.{AppliedAt, DueSays, CascadeStarts, CascadeDoes};
ghost use Rattle.steps.specs.Link.DeliverReceive.{MissingOf, Arriving, ReceivedAs};
ghost use Rattle.steps.specs.Turn.{Apart, NoRefusal, turned, done};
ghost use Rattle.steps.specs.Link.Deliver.{Part, Delivers, Tested};

use crate::common::need;
use clock::PLACES;
use reply::{APPLIED, Answer, Name, Refusal};
use table::{Cell, Cells, DONE, Desk, HELD, Open, Opens};

// The counts after a cascade, and how many names it listed.
#[derive(Drop)]
struct Applied {
    counts: [u16; PLACES],
    len: usize,
}

// Entry e applied at desk i of n, and handed back when all have applied it.
fn apply_at(cells: &mut Cells, opens: &mut Opens, n: usize, i: usize, e: usize)
    requires { (n ≤ places) × ((In places i) × ((e < entries) × (In desk_cells (open_at opens.old e).cell))) }
    ensures { AppliedAt n i e cells.old opens.old cells.new opens.new }
{
    let Open {
        writer,
        status,
        cell,
        vector,
        ..
    } = opens[e];
    cells[table::slot_of(i, usize::from(cell))] = Cell {
        writer,
        status,
        vector,
    };
    table::put_mark(opens, e, i - 1, DONE);
    if table::all_applied(opens, e, n) {
        opens[e].writer = 0;
    }
}

// The entry of the write of desk u that is held at desk i and ready there. Only the next in order can be.
fn due_of(a: [u16; PLACES], own: [u16; PLACES], opens: &Opens, i: usize, u: usize) -> Option<usize>
    requires { (In places i) × ((In places u) × (Unique opens.now)) }
    ensures { DueSays a own opens.now i u result }
{
    let k = a[u - 1];
    if own[u - 1] <= k {
        return None;
    }
    let e = table::find(opens, u, k + 1)?;
    if opens[e].marks[i - 1] != HELD {
        return None;
    }
    clock::ready(a, opens[e].vector, u).then_some(e)
}

// An entry, a ready write of a writer, applied at desk i where the counts are these, and then every held write that becomes ready,
// smallest writer first.
// Kept: the loop is labelled and its search yields the entry by break, as the project has every cascade.
fn cascade(
    n: usize,
    mut counts: [u16; PLACES],
    own: [u16; PLACES],
    cells: &mut Cells,
    opens: &mut Opens,
    names: &mut [Name; APPLIED],
    i: usize,
    mut writer: usize,
    mut entry: usize,
) -> Applied
    requires { CascadeStarts n i writer entry counts own cells.old opens.old }
    ensures { CascadeDoes n i writer entry counts own cells.old opens.old names.old result.counts result.len cells.new opens.new names.new }
{
    let mut len = 0;
    'apply: loop {
        apply_at(cells, opens, n, i, entry);
        let number = counts[writer - 1] + 1;
        counts[writer - 1] = number;
        names[len] = Name {
            writer: writer as u16,
            number,
        };
        len += 1;
        let found = 'search: {
            for t in 1..=n {
                if let Some(x) = due_of(counts, own, opens, i, t) {
                    break 'search Some((t, x));
                }
            }
            None
        };
        let Some(due) = found else {
            break 'apply;
        };
        (writer, entry) = due;
    }
    Applied { counts, len }
}

// The name that a write of desk u waits for; none where it is ready. a: the desk's counts, v: the write's vector.
fn missing(a: [u16; PLACES], v: [u16; PLACES], u: usize) -> Option<Name>
    requires { place a u < place v u }
    ensures { MissingOf a v u result }
{
    let missing = clock::readiness(a, v, u)?;
    Some(Name {
        writer: missing.desk as u16,
        number: missing.number as u16,
    })
}

// Entry e, a write of desk u that desk i has not received: held or applied.
fn receive(
    n: usize,
    desk: &mut Desk,
    own: [u16; PLACES],
    cells: &mut Cells,
    opens: &mut Opens,
    names: &mut [Name; APPLIED],
    i: usize,
    u: usize,
    e: usize,
) -> Answer
    requires { Arriving n i u e desk.old.applied own cells.old opens.old }
    ensures turn { ReceivedAs n i u e desk.old own cells.old opens.old names.old (done desk.new result) cells.new opens.new names.new }
    ensures apart { NoRefusal result }
{
    let v = opens[e].vector;
    // (That it is ready is told sooner than that nothing is missing.)
    if !clock::ready(desk.applied, v, u)
        && let Some(name) = missing(desk.applied, v, u)
    {
        table::put_mark(opens, e, i - 1, HELD);
        return Answer::Held(name);
    }
    let Applied { counts, len } = cascade(n, desk.applied, own, cells, opens, names, i, u, e);
    desk.applied = counts;
    Answer::Applied(len)
}

// Refusals 1, 6, 7, and 8 of a write that is applied at the desk: no entry is looked at. a: the desk's counts.
fn tests(
    n: usize,
    a: [u16; PLACES],
    own: [u16; PLACES],
    i: usize,
    u: usize,
    k: usize,
) -> Result<(), Refusal>
    requires { n ≤ places }
    ensures { Tested n a own i u k result }
{
    need(table::inside(n, i) && table::inside(n, u), Refusal::NoDesk)?;
    need(i != u, Refusal::OwnWrite)?;
    need(table::inside(usize::from(own[u - 1]), k), Refusal::NoWrite)?;
    need(usize::from(a[u - 1]) < k, Refusal::Received)
}

// Write k of desk u delivered to desk i of n: desk is that one, own each desk's own count; the names of an answer stand in names.
pub fn deliver_at(
    n: usize,
    desk: &mut Desk,
    own: [u16; PLACES],
    cells: &mut Cells,
    opens: &mut Opens,
    names: &mut [Name; APPLIED],
    i: usize,
    u: usize,
    k: usize,
) -> Result<Answer, Refusal>
    requires { Part n desk.old own cells.old opens.old i }
    ensures turn { Delivers n desk.old own cells.old opens.old names.old i u k (turned desk.new result) cells.new opens.new names.new }
    ensures apart { Apart result }
{
    tests(n, desk.applied, own, i, u, k)?;
    let e = table::find(opens, u, k as u16).ok_or(Refusal::Received)?;
    need(opens[e].marks[i - 1] == 0, Refusal::Received)?;
    Ok(receive(n, desk, own, cells, opens, names, i, u, e))
}
