// Write: the desk's own clock place rises, the cell takes it, and an entry holds it for the other desks.
ghost use Rattle.std.specs.Prelude.{◌≡◌, ◌-◌, ◌<◌, get_or};
ghost use Rattle.machine.specs.Table.{most_writes};
ghost use Rattle.machine.specs.Rules.{In};
ghost use Rattle.machine.specs.Steps.{Write};
ghost use Rattle.clock.specs.Vectors.{places, place};
ghost use Rattle.table.specs.Value.{desk_cells};
ghost use Rattle.steps.specs.Turn.{Apart, turned, done};
ghost use Rattle.steps.specs.Mirror.Write.{new_marks, Spotted, SpotIn, enter_at, Wrote, SomeTable, Writes};

use crate::common::need;
use clock::{MOST_WRITES, PLACES};
use reply::{Answer, Name, Refusal};
use table::{Cell, Cells, DONE, Desk, MOST_STATUS, Open, Opens};

// The entry for write k of desk i; none where there is no other desk to hold it for.
fn spot_for(n: usize, opens: &Opens, i: usize, k: u16) -> Result<Option<usize>, Refusal>
    ensures { Spotted n opens.now result }
{
    if n == 1 {
        return Ok(None);
    }
    table::find_free(opens, i, k).map(Some).ok_or(Refusal::Full)
}

// Not received anywhere, and applied at its writer.
fn new_marks(i: usize) -> [u16; PLACES]
    requires { In places i }
    ensures { result ≡ new_marks i }
{
    let mut marks = [0; PLACES];
    marks[i - 1] = DONE;
    marks
}

fn enter(opens: &mut Opens, spot: Option<usize>, o: Open)
    requires { SpotIn spot }
    ensures { opens.new ≡ enter_at opens.old spot o }
{
    if let Some(e) = spot {
        opens[e] = o;
    }
}

// The write of desk i at cell x, all tests passed.
fn write(
    desk: &mut Desk,
    cells: &mut Cells,
    opens: &mut Opens,
    i: usize,
    x: usize,
    status: u16,
    spot: Option<usize>,
) -> Answer
    requires within { (In places i) × ((In desk_cells x) × (SpotIn spot)) }
    requires not_spent { get_or desk.old.applied (i - 1) 0 < most_writes }
    ensures { Wrote desk.old cells.old opens.old i x status spot (done desk.new result) cells.new opens.new }
{
    // Kept: `as` where a number fits, here and in `deliver`, since TryFrom is for what may not.
    let writer = i as u16;
    let number = desk.applied[i - 1] + 1;
    desk.applied[i - 1] = number;
    desk.clock = desk.clock.raise(i);
    let vector = desk.clock.at;
    cells[table::slot_of(i, x)] = Cell {
        writer,
        status,
        vector,
    };
    let open = Open {
        writer,
        status,
        cell: x as u16,
        vector,
        marks: new_marks(i),
    };
    enter(opens, spot, open);
    Answer::Wrote(Name { writer, number })
}

pub fn write_at(
    n: usize,
    m: usize,
    desk: &mut Desk,
    cells: &mut Cells,
    opens: &mut Opens,
    i: usize,
    x: usize,
    v: usize,
) -> Result<Answer, Refusal>
    requires { SomeTable n m cells.old opens.old i desk.old }
    ensures turn { Writes n m cells.old opens.old i desk.old (Write i x v) (turned desk.new result) cells.new opens.new }
    ensures apart { Apart result }
{
    need(table::inside(n, i), Refusal::NoDesk)?;
    need(table::inside(m, x), Refusal::NoCell)?;
    need(v <= MOST_STATUS, Refusal::NoStatus)?;
    let k = table::at_place(desk.applied, i);
    need(k < MOST_WRITES, Refusal::Spent)?;
    let spot = spot_for(n, opens, i, k + 1)?;
    Ok(write(desk, cells, opens, i, x, v as u16, spot))
}
