// A text against the session so far: no table yet, or a table.
#![tactic(auto)]

ghost use Rattle.std.specs.Prelude.{◌≡◌, ◌+◌, ◌<◌, ◌≤◌, length};
ghost use Rattle.std.proofs.Math.Option.{none};
ghost use Rattle.laws.specs.Loop.{pick};
ghost use Rattle.clock.specs.Vectors.{places};
ghost use Rattle.machine.specs.Steps.{begins};
ghost use Rattle.schedule.specs.Grammar.{line_of};
ghost use Rattle.schedule.specs.LineValue.{most_listed, cell_count};
ghost use Rattle.session.specs.Mirror.LineValue.{Means, line_actor, line_desk};
ghost use Rattle.session.specs.Holds.{zero_core, SomeSession};
ghost use Rattle.session.specs.Link.LineTurn.{Acting, LineActs, first_core, first_answer};
ghost use Rattle.session.specs.Link.RunningTurn.{SomeRunning, TurnsOn};
ghost use Rattle.steps.specs.Turn.{answer_in, turned};
ghost use Rattle.answer.specs.Bytes.{answer_line, most_answer};
ghost use Rattle.reply.specs.Meaning.{answer_of};
ghost use Rattle.laws.specs.Stores.{Stored};
ghost use Rattle.session.specs.Run.{Runs};
ghost use Rattle.table.specs.Model.{table_with};

use answer::LONGEST_ANSWER;
use clock::PLACES;
use reply::{APPLIED, Answer, Name, Refusal};
use schedule::{LIST, Line};
use table::{Cells, Core, Desk, Opens};

// The desk that a line names first, where it names one.
fn actor(s: Option<Line>) -> Option<usize>
    ensures { result ≡ line_desk s }
{
    match s? {
        Line::Read(i, _) | Line::Write(i, _, _) | Line::Deliver(i, _, _) | Line::Trip(i, _) => {
            Some(i)
        }
        Line::New(_, _) => None,
    }
}

// A line on a table of n desks and m cells: desk is the one that it names first, own each desk's own count, list has the cells of a trip.
fn act(
    n: usize,
    m: usize,
    desk: &mut Desk,
    own: [u16; PLACES],
    cells: &mut Cells,
    opens: &mut Opens,
    s: Option<Line>,
    list: &[u16; LIST],
    names: &mut [Name; APPLIED],
) -> Result<Answer, Refusal>
    requires { (cell_count s ≤ most_listed) × (Acting n m cells.old opens.old own (line_actor s) desk.old) }
    ensures { LineActs n m desk.old own cells.old opens.old list.now s (turned desk.new result) cells.new opens.new names.new }
{
    match s {
        Some(Line::Deliver(i, u, k)) => {
            steps::deliver::deliver_at(n, desk, own, cells, opens, names, i, u, k)
        }
        Some(Line::Read(i, x)) => steps::look::read_at(n, m, desk, cells, i, x),
        Some(Line::Write(i, x, v)) => steps::write::write_at(n, m, desk, cells, opens, i, x, v),
        Some(Line::Trip(i, count)) => steps::look::trip_at(n, m, desk, cells, i, &list[..count]),
        Some(Line::New(_, _)) | None => Err(Refusal::NoStep),
    }
}

// The table under way, n = 0 while there is none, and each desk's own count beside it. The two arrays are lent to each line.
#[derive(Drop)]
struct Running {
    core: Core,
    own: [u16; PLACES],
}

impl Running {
    // A line before there is a table: with N n m every number of the table is 0 already.
    fn first(&mut self, s: Option<Line>) -> Result<Answer, Refusal>
        ensures core { self.new ≡ record { core = first_core self.old.core s; own = self.old.own } }
        ensures answer { answer_in result ≡ first_answer s }
    {
        let Some(Line::New(n, m)) = s else {
            return Err(Refusal::NoStep);
        };
        if !table::begins(n, m) {
            return Err(Refusal::NoSize);
        }
        self.core.n = n;
        self.core.m = m;
        Ok(Answer::Begun)
    }

    // A line on the table; the count of the desk that acts is brought along.
    fn next(
        &mut self,
        cells: &mut Cells,
        opens: &mut Opens,
        s: Option<Line>,
        list: &[u16; LIST],
        names: &mut [Name; APPLIED],
    ) -> Result<Answer, Refusal>
        requires some { (cell_count s ≤ most_listed) × (SomeRunning self.old cells.old opens.old) }
        requires begun { self.old.core.n ≡ 0 → ⊥ }
        ensures { TurnsOn self.old cells.old opens.old list.now s (answer_in result) self.new cells.new opens.new names.new }
    {
        // Kept: no other fact tells how long the arrays within the desks, the cells and the entries are.
        table::desks_shape(self.core.desks);
        table::cells_shape(cells);
        table::opens_shape(opens);
        let Core { n, m, .. } = self.core;
        let own = self.own;
        let p = actor(s).map_or(0, steps::seat);
        let made = act(
            n,
            m,
            &mut self.core.desks[p],
            own,
            cells,
            opens,
            s,
            list,
            names,
        );
        self.own[p] = self.core.desks[p].applied[p];
        made
    }

    // A line on what there is so far.
    fn turn(
        &mut self,
        cells: &mut Cells,
        opens: &mut Opens,
        s: Option<Line>,
        list: &[u16; LIST],
        names: &mut [Name; APPLIED],
    ) -> Answer
        requires { (cell_count s ≤ most_listed) × (SomeRunning self.old cells.old opens.old) }
        ensures { TurnsOn self.old cells.old opens.old list.now s result self.new cells.new opens.new names.new }
    {
        if self.core.n == 0 {
            steps::said(self.first(s))
        } else {
            steps::said(self.next(cells, opens, s, list, names))
        }
    }
}

// What a line says: nothing where no LF ended it. The cells of a trip go to the list.
fn said(line: &[u8], ended: bool, list: &mut [u16; LIST]) -> Option<Line>
    ensures { Means (pick ended (line_of line.now) none) result list.new }
{
    if ended {
        schedule::line_of(line, list)
    } else {
        None
    }
}

// The line of an answer, where a line of any answer has room.
fn print(out: &mut [u8], at: usize, a: Answer, names: &[Name; APPLIED]) -> usize
    requires { at + most_answer ≤ length out.old }
    ensures stored { Stored out.old at (answer_line (answer_of a names.now)) out.new result }
    ensures within { result ≤ length out.old }
{
    answer::put(out, at, a, names).unwrap_or(at)
}

// Kept: n = 0, and no `Option` of the core: nothing keeps n = 0 out of a `Some`, so each place would test n all the same.
// The table, n = 0 while there is none, how far the text is read, and how many bytes of answers there are.
#[derive(Drop)]
pub struct Progress {
    pub core: Core,
    pub at: usize,
    pub len: usize,
}

// No table yet: nothing but zeros. The two arrays that are lent are zeros then, too.
pub fn start() -> Core
    ensures { result ≡ zero_core }
{
    table::fresh_core(0, 0)
}

// Runs the lines from a place on, while there are any and an answer of any length has room.
pub fn run(
    core: Core,
    cells: &mut Cells,
    opens: &mut Opens,
    text: &[u8],
    at: usize,
    out: &mut [u8],
) -> Progress
    requires { SomeSession (table_with core cells.old opens.old) }
    ensures { Runs (table_with core cells.old opens.old) text.now at out.old (table_with result.core cells.new opens.new) result.at result.len out.new }
{
    let own = rules::own_counts(core.desks);
    let mut running = Running { core, own };
    let mut names = [Name {
        writer: 0,
        number: 0,
    }; APPLIED];
    let mut list = [0; LIST];
    let mut place = at;
    let mut len = 0;
    while place < text.len() && LONGEST_ANSWER <= out.len() - len {
        // Kept: a Reader would look for the line's end three times, in `line`, `ended` and `after`.
        let line = reader::first_line(text, place);
        let end = place + line.len();
        let s = said(line, end < text.len(), &mut list);
        let answer = running.turn(cells, opens, s, &list, &mut names);
        len = print(out, len, answer, &names);
        place = (end + 1).min(text.len());
    }
    Progress {
        core: running.core,
        at: place,
        len,
    }
}
