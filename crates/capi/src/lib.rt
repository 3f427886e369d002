// The face to other languages: a saved table and a schedule in, the answers and the table saved after it out.
#![tactic(auto)]

ghost use Rattle.std.specs.Prelude.{◌≡◌, true, ◌≤◌, length};
ghost use Rattle.session.specs.Holds.{SomeSession};
ghost use Rattle.session.specs.Transcript.{most_text};
ghost use Rattle.capi.specs.Access.{left, access_run, inspected, access_inspect};
ghost use Rattle.load.specs.Finding.{finding_numbers};
ghost use Rattle.capi.specs.Mirror.AccessParts.{status, Roomy, BothSaved, RoomFor, Lined, SomeCore, ImageSize, ImageRoom, ImageSaved};
ghost use Rattle.capi.specs.Mirror.AccessParts.{BothPut, Finishes, Ends, RunsFrom, ImageStarts};
ghost use Rattle.capi.specs.declared.Refused.TheVariants.{Image};
ghost use Rattle.table.specs.Beginning.{fresh_table};
ghost use Rattle.table.specs.Model.{table_with};

use clock::PLACES;
use load::{Fault, Sizes};
use table::{CELLS, Cell, Cells, Core, OPENS, Open, Opens};

// The most bytes of a schedule.
const LONGEST_TEXT: usize = 65536;

// The answers that are kept while it is not known yet whether all fit: what comes behind them is counted first, and made again. Each call
// clears as many bytes.
const KEPT: usize = 81920;

// The answers of one run behind those.
const PART: usize = 16384;

// The numbers that tell of an image.
const FINDING: usize = 5;

// The table after a text, and how many bytes its answers take.
#[derive(Drop)]
struct Ended {
    core: Core,
    len: usize,
}

// Why a call is refused: for its image, or as something is too short or too long.
#[derive(Clone, Copy)]
enum Refused {
    Image(Fault),
    Short,
}

impl From<Fault> for Refused {
    ghost from_gives = { λ f r. r ≡ Image f };

    fn from(f: Fault) -> Refused {
        Refused::Image(f)
    }
}

// The number that a call returns.
fn number(done: Result<(), Refused>) -> u64
    ensures { result ≡ status done }
{
    match done {
        Ok(()) => 0,
        Err(Refused::Image(f)) => u64::from(f.number()),
        Err(Refused::Short) => 14,
    }
}

// The lines from a place on: their answers are counted, and put into the buffer if that is asked for.
// Kept: a flag, since no contract names what the slice of an `Option<&mut [u8]>`, or one that a closure caught, holds at the end.
fn lines(
    mut core: Core,
    cells: &mut Cells,
    opens: &mut Opens,
    text: &[u8],
    at: usize,
    put: bool,
    out: &mut [u8],
    from: usize,
) -> Ended
    requires some_session { SomeSession (table_with core cells.old opens.old) }
    requires room { (length text.now ≤ most_text) × RoomFor (table_with core cells.old opens.old) text.now at put out.old from }
    ensures { Lined (table_with core cells.old opens.old) text.now at put out.old from (table_with result.core cells.new opens.new) result.len out.new }
{
    let mut part = [0; PART];
    let mut place = at;
    let mut len = 0;
    // Kept: each turn goes on where the run before it stopped.
    while place < text.len() {
        let p = session::run(core, cells, opens, text, place, &mut part);
        if put {
            block::copy(&part, p.len, out, from + len);
        }
        core = p.core;
        place = p.at;
        len += p.len;
    }
    Ended { core, len }
}

// How long the image is; 0 while there is no table.
fn image_size(core: Core) -> usize
    requires { SomeCore core }
    ensures { ImageSize core result }
{
    if core.n == 0 {
        0
    } else {
        image::image_length(core)
    }
}

// The image, into a buffer that has room for it; nothing while there is no table.
fn save_image(core: Core, cells: &Cells, opens: &Opens, out: &mut [u8]) -> usize
    requires some_session { SomeSession (table_with core cells.now opens.now) }
    requires image_room { ImageRoom (table_with core cells.now opens.now) out.old }
    ensures { ImageSaved (table_with core cells.now opens.now) out.old out.new result }
{
    if core.n == 0 {
        0
    } else {
        image::save_parts(core, cells, opens, out)
    }
}

// Whether so many bytes of answers and the image have room.
fn room(all: usize, core: Core, answers: &[u8], image_out: &[u8]) -> Result<(), Refused>
    requires { SomeCore core }
    ensures { Roomy core all answers.now image_out.now result }
{
    if answers.len() < all || image_out.len() < image_size(core) {
        return Err(Refused::Short);
    }
    Ok(())
}

// The image, and how many bytes there are of the answers and of it.
fn save(
    all: usize,
    core: Core,
    cells: &Cells,
    opens: &Opens,
    image_out: &mut [u8],
    lengths: &mut [u64],
)
    requires some_session { SomeSession (table_with core cells.now opens.now) }
    requires image_room { ImageRoom (table_with core cells.now opens.now) image_out.old }
    requires lengths { 2 ≤ length lengths.old }
    ensures { BothSaved (table_with core cells.now opens.now) all image_out.old lengths.old image_out.new lengths.new }
{
    let size = save_image(core, cells, opens, image_out);
    // Kept: `as` for the numbers that C reads.
    lengths[0] = all as u64;
    lengths[1] = size as u64;
}

// The first answers and those of the lines behind them, into a buffer that has room for both.
fn put_answers(
    first: &[u8],
    core: Core,
    cells: &mut Cells,
    opens: &mut Opens,
    text: &[u8],
    at: usize,
    answers: &mut [u8],
)
    requires some_session { SomeSession (table_with core cells.old opens.old) }
    requires room { (length text.now ≤ most_text) × RoomFor (table_with core cells.old opens.old) text.now at true answers.old (length first.now) }
    ensures { BothPut (table_with core cells.old opens.old) text.now at first.now answers.old answers.new }
{
    block::copy(first, first.len(), answers, 0);
    lines(core, cells, opens, text, at, true, answers, first.len());
}

// Behind the first answers: what the lines there answer is counted, and nothing is put before it is known that all of it fits.
fn finish(
    first: &[u8],
    core: Core,
    cells: &mut Cells,
    opens: &mut Opens,
    text: &[u8],
    at: usize,
    answers: &mut [u8],
    image_out: &mut [u8],
    lengths: &mut [u64],
) -> Result<(), Refused>
    requires some_session { SomeSession (table_with core cells.old opens.old) }
    requires lengths { (length text.now ≤ most_text) × (2 ≤ length lengths.old) }
    ensures { Finishes (table_with core cells.old opens.old) text.now at first.now answers.old image_out.old lengths.old (left (status result) answers.new image_out.new lengths.new) }
{
    // Copies: the lines are run twice.
    let mut last_cells = *cells;
    let mut last_opens = *opens;
    let e = lines(
        core,
        &mut last_cells,
        &mut last_opens,
        text,
        at,
        false,
        answers,
        first.len(),
    );
    let all = first.len() + e.len;
    room(all, e.core, answers, image_out)?;
    put_answers(first, core, cells, opens, text, at, answers);
    save(all, e.core, &last_cells, &last_opens, image_out, lengths);
    Ok(())
}

// finish where no line is left: the first answers are all of them, and the arrays need no copy.
fn end(
    first: &[u8],
    core: Core,
    cells: &Cells,
    opens: &Opens,
    answers: &mut [u8],
    image_out: &mut [u8],
    lengths: &mut [u64],
) -> Result<(), Refused>
    requires some_session { SomeSession (table_with core cells.now opens.now) }
    requires lengths { 2 ≤ length lengths.old }
    ensures { Ends (table_with core cells.now opens.now) first.now answers.old image_out.old lengths.old (left (status result) answers.new image_out.new lengths.new) }
{
    room(first.len(), core, answers, image_out)?;
    block::copy(first, first.len(), answers, 0);
    save(first.len(), core, cells, opens, image_out, lengths);
    Ok(())
}

// From a session. What the lent arrays hold after it is nobody's.
fn run_from(
    core: Core,
    cells: &mut Cells,
    opens: &mut Opens,
    text: &[u8],
    answers: &mut [u8],
    image_out: &mut [u8],
    lengths: &mut [u64],
) -> Result<(), Refused>
    requires { SomeSession (table_with core cells.old opens.old) }
    ensures { RunsFrom (table_with core cells.old opens.old) text.now answers.old image_out.old lengths.old (left (status result) answers.new image_out.new lengths.new) }
{
    if LONGEST_TEXT < text.len() || lengths.len() < 2 {
        return Err(Refused::Short);
    }
    let mut kept = [0; KEPT];
    let p = session::run(core, cells, opens, text, 0, &mut kept);
    let first = &kept[..p.len];
    if p.at < text.len() {
        finish(
            first, p.core, cells, opens, text, p.at, answers, image_out, lengths,
        )
    } else {
        end(first, p.core, cells, opens, answers, image_out, lengths)
    }
}

// The table in an image, into arrays of zeros; from an empty one there is none yet, and they stay so.
fn start(image: &[u8], cells: &mut Cells, opens: &mut Opens) -> Result<Core, Fault>
    requires { (cells.old ≡ (fresh_table 0 0).cells) × (opens.old ≡ (fresh_table 0 0).opens) }
    ensures { ImageStarts image.now result cells.new opens.new }
{
    if image.is_empty() {
        return Ok(table::fresh_core(0, 0));
    }
    load::load_into(image, cells, opens)
}

// From the table in an image.
fn run_saved(
    image: &[u8],
    schedule: &[u8],
    answers: &mut [u8],
    image_out: &mut [u8],
    lengths: &mut [u64],
) -> Result<(), Refused>
    ensures { left (status result) answers.new image_out.new lengths.new ≡ access_run image.now schedule.now answers.old image_out.old lengths.old }
{
    let mut cells = [Cell::UNSET; PLACES * CELLS];
    let mut opens = [Open::FREE; OPENS];
    let core = start(image, &mut cells, &mut opens)?;
    run_from(
        core, &mut cells, &mut opens, schedule, answers, image_out, lengths,
    )
}

// Nothing is kept between two calls: what goes on is the image.
#[unsafe(no_mangle)]
pub extern "C" fn access_run(
    image: &[u8],
    schedule: &[u8],
    answers: &mut [u8],
    image_out: &mut [u8],
    lengths: &mut [u64],
) -> u64
    ensures { left result answers.new image_out.new lengths.new ≡ access_run image.now schedule.now answers.old image_out.old lengths.old }
{
    number(run_saved(image, schedule, answers, image_out, lengths))
}

// What there is to tell of an image, as numbers: of a refusal its number and its place, else 0, 0 and the sizes of the table.
fn numbers(found: Result<Sizes, Fault>) -> [u64; FINDING]
    ensures { result ≡ finding_numbers found }
{
    match found {
        Ok(z) => [0, 0, z.n as u64, z.m as u64, z.open as u64],
        Err(f) => [u64::from(f.number()), f.place() as u64, 0, 0, 0],
    }
}

// What is wrong with an image, or the sizes of its table, where there is room to tell it.
fn tell(image: &[u8], finding: &mut [u64]) -> Result<(), Refused>
    ensures { inspected (status result) finding.new ≡ access_inspect image.now finding.old }
{
    if finding.len() < FINDING {
        return Err(Refused::Short);
    }
    finding[..FINDING].copy_from_slice(&numbers(load::inspect(image)));
    Ok(())
}

// What is wrong with an image, or the sizes of its table.
#[unsafe(no_mangle)]
pub extern "C" fn access_inspect(image: &[u8], finding: &mut [u64]) -> u64
    ensures { inspected result finding.new ≡ access_inspect image.now finding.old }
{
    number(tell(image, finding))
}
