// What the programs share at their streams.
#![tactic(auto)]

ghost use Rattle.console.specs.Filling.{Filled, Takes};

use std::io;
use std::io::Read;

// Reads to the front of the buffer until it is full or the input ends, and returns how many bytes it read.
// Kept: the loop goes on by what the input gave, since `read_exact` fails where it ends and `read_to_end` takes the heap.
pub fn fill<R: Read>(input: &mut R, buffer: &mut [u8]) -> io::Result<usize>
    ensures bound { Filled result buffer.new }
    ensures bytes { Takes (R.remaining input.old) (R.remaining input.new) result buffer.new }
{
    let mut n = 0;
    while n < buffer.len() {
        let more = input.read(&mut buffer[n..])?;
        if more == 0 {
            break;
        }
        n += more;
    }
    Ok(n)
}
