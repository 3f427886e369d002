// The four steps: each is lent the acting desk, which it changes, and answers; a refusal leaves all that it was lent as it came.
// Kept: what a step is lent goes one by one. In a struct that holds the `&mut`, each contract would have to say that each of them stays.
#![tactic(auto)]

ghost use Rattle.std.specs.Prelude.{◌≡◌, ◌<◌};
ghost use Rattle.clock.specs.Vectors.{places};
ghost use Rattle.steps.specs.Turn.{answer_in};
ghost use Rattle.steps.specs.Seat.{seat_of};

use clock::PLACES;
use reply::{Answer, Refusal};

mod common;
pub mod deliver;
pub mod look;
pub mod write;

// The place of desk i in the array of desks, and the first for a number that is no desk: a step then leaves the desk there as it is.
pub fn seat(i: usize) -> usize
    ensures { (result ≡ seat_of i) × (result < places) }
{
    if table::inside(PLACES, i) { i - 1 } else { 0 }
}

// What is said of a step: its answer, or its refusal.
pub fn said(made: Result<Answer, Refusal>) -> Answer
    ensures { result ≡ answer_in made }
{
    match made {
        Ok(answer) => answer,
        Err(why) => Answer::Refused(why),
    }
}
