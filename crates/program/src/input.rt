// The input taken apart: where the line `end` is, and the numbers after it.
ghost use Rattle.std.specs.Prelude.{◌≡◌, ◌≤◌, length, set};
ghost use Rattle.text.specs.Place.{lines_from};
ghost use Rattle.program.specs.Input.{EndYield, InputsYield};

use lines::number_of;
use text::{Text, line_end};

// The line after a list.
const END: &[u8] = b"end";

// Where the first line `end` starts, and how many lines come before it. No ghost field says where it is: the steps of `reading` know different
// things of it (`ListGiven`, `InputsGiven`).
#[derive(Clone, Copy)]
pub struct Ending {
    pub at: usize,
    pub lines: usize,
}

// The first line `end`, where there is one.
pub fn find_end(text: Text) -> Option<Ending>
    ensures { EndYield text.entry.bytes.now result }
{
    let mut at: usize = 0;
    let mut lines: usize = 0;
    // By place: the next line starts where this one ends, and the answer is a place too, which `split` does not give.
    while at < text.bytes.len() {
        let end = line_end(text.bytes, at);
        if &text.bytes[at..end] == END {
            return Some(Ending { at, lines });
        }
        at = end + 1;
        lines += 1;
    }
    None
}

// How many numbers there are, or which line, counted from 0, is the first that is none. The first of the numbers are stored, as many as have
// room; those after them are counted.
#[tactic(auto, using(crate::proofs::Inputs::inputs_begun))]
pub fn read_inputs(text: Text, start: usize, inputs: &mut [i64; 256]) -> Result<usize, usize>
    requires { start ≤ length text.bytes.now }
    ensures { InputsYield (lines_from text.entry.bytes.now start) inputs.new result }
{
    let mut at = start;
    let mut count: usize = 0;
    // By place: the next line starts where this one ends, and `number_of` takes a text and a place: an iterator over the lines would be no plainer.
    while at < text.bytes.len() {
        let Some(number) = number_of(text, at) else {
            return Err(count);
        };
        store(inputs, count, number.value);
        at = number.end + 1;
        count += 1;
    }
    Ok(count)
}

// Stores a number where it has room. Not by `get_mut`, of which the library doesn't say what the slice ends as.
fn store(inputs: &mut [i64], i: usize, n: i64)
    ensures { inputs.new ≡ set inputs.old i n }
{
    if i < inputs.len() {
        inputs[i] = n;
    }
}
