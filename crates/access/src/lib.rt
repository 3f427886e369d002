// The four steps on a table value, for any caller: 13 before all else, then the step's own order.
#![tactic(auto)]

ghost use Rattle.std.specs.Prelude.{◌≡◌, [], ◌≤◌};
ghost use Rattle.machine.specs.Steps.{Read, Write, Trip};
ghost use Rattle.reply.specs.Meaning.{answer_of};
ghost use Rattle.access.specs.Met.{Met, Brought, no_names};
ghost use Rattle.access.specs.Acted.{Takes, Acted};
ghost use Rattle.rules.specs.Mirror.Test.{owns};
ghost use Rattle.steps.specs.{Stepped.{Placed}, Turn.{turned}, Mirror.Write.{SomeTable, Writes}};
ghost use Rattle.table.specs.declared.Desk.{Desk};

use reply::{APPLIED, Answer, Name, Refusal};
use table::{Cells, Core, Desk, Opens, Table};

// Kept: the answer may be a refusal, and the table stays beside it: `Met` and `Brought` promise both.
#[derive(Drop)]
pub struct Done {
    pub table: Table,
    pub answer: Answer,
}

// The names of an answer that applies writes, then zeros.
#[derive(Drop)]
pub struct Delivered {
    pub table: Table,
    pub answer: Answer,
    pub names: [Name; APPLIED],
}

// One step of desk i: 13 where the table breaks the rules; else the step is lent the desk and the arrays. (Called, it would hand the table on by
// value once more, and a delivery takes half as long again.)
#[inline(always)]
fn acted<
    F: FnOnce(&mut Desk, &mut Cells, &mut Opens, &mut [Name; APPLIED]) -> Result<Answer, Refusal>,
>(mut t: Table, i: usize, step: F) -> Delivered
    requires { (d : Desk) → Placed t (owns t.core.desks) i d → Takes F.FnOnce step t d }
    ensures { Acted F.FnOnce step t i result }
{
    let none = Name {
        writer: 0,
        number: 0,
    };
    let mut names = [none; APPLIED];
    table::table_shape(t);
    if !rules::keeps_rules(t.core, &t.cells, &t.opens) {
        return Delivered {
            table: t,
            answer: Answer::Refused(Refusal::Broken),
            names,
        };
    }
    let p = steps::seat(i);
    // Kept: no element of an array is lent beside another field of the struct that holds it; the check doesn't cover that.
    let mut desk = t.core.desks[p];
    let made = step(&mut desk, &mut t.cells, &mut t.opens, &mut names);
    t.core.desks[p] = desk;
    Delivered {
        table: t,
        answer: steps::said(made),
        names,
    }
}

pub fn read(t: Table, i: usize, x: usize) -> Done
    ensures { Met t (Read i x) result.table (answer_of result.answer []) }
{
    let Core { n, m, .. } = t.core;
    let Delivered { table, answer, .. } = acted(t, i, |desk, cells, _, _| {
        steps::look::read_at(n, m, desk, cells, i, x)
    });
    Done { table, answer }
}

pub fn write(t: Table, i: usize, x: usize, v: usize) -> Done
    ensures { Met t (Write i x v) result.table (answer_of result.answer []) }
{
    let Core { n, m, .. } = t.core;
    let Delivered { table, answer, .. } = acted(
        t,
        i,
        |desk, cells, opens, _|
            requires { SomeTable n m cells.old opens.old i desk.old }
            ensures { Writes n m cells.old opens.old i desk.old (Write i x v) (turned desk.new result) cells.new opens.new }
        { steps::write::write_at(n, m, desk, cells, opens, i, x, v) },
    );
    Done { table, answer }
}

pub fn deliver(t: Table, i: usize, u: usize, k: usize) -> Delivered
    ensures { Brought t i u k result.table result.answer result.names }
{
    let Core { n, desks, .. } = t.core;
    acted(t, i, |desk, cells, opens, names| {
        let own = rules::own_counts(desks);
        steps::deliver::deliver_at(n, desk, own, cells, opens, names, i, u, k)
    })
}

pub fn trip(t: Table, i: usize, list: &[u16]) -> Done
    ensures { Met t (Trip i list.now) result.table (answer_of result.answer []) }
{
    let Core { n, m, .. } = t.core;
    let Delivered { table, answer, .. } = acted(t, i, |desk, cells, _, _| {
        steps::look::trip_at(n, m, desk, cells, i, list)
    });
    Done { table, answer }
}
