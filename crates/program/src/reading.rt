// The program's input read: its list, and then its inputs. Each step that can be refused answers a `Result`; what is refused is written by the caller. How
// many inputs are stored is answered, as std's `read` answers how many bytes (fixed memory).
ghost use Rattle.program.specs.Made.{ListGiven, InputsGiven, ReadYield, PartsYield, ColumnYield};

use super::input::{Ending, find_end, read_inputs};
use reader::survey;
use refusal::{Refusal, Refused};
use text::Text;

// A list that is read, in its input: the input as a text, where the line `end` is, and how many cells the list has.
#[derive(Clone, Copy)]
pub struct Listed<'a> {
    pub text: Text<'a>,
    pub end: Ending,
    pub cells: usize,
}

// The list of the input, where it is read. FORMAT 11.2, 11.3, 11.11
#[tactic(auto, using(crate::proofs::Responding::too_long, crate::proofs::Responding::input_answered))]
pub fn read_list(input: &[u8]) -> Result<Listed, Refused>
    ensures { ReadYield input.now result }
{
    if 65536 < input.len() {
        return Err(Refusal::TextTooLong.at(0));
    }
    let Some(text) = Text::of(input) else {
        return Err(Refusal::TextNotEnded.at(0));
    };
    let end = find_end(text).ok_or(Refusal::TextNotEnded.at(0))?;
    read_parts(text, end)
}

// The same where the line `end` is there. The list before it comes first. FORMAT 11.5
fn read_parts(text: Text, end: Ending) -> Result<Listed, Refused>
    requires { ListGiven text.bytes.now end }
    ensures { PartsYield text.entry.bytes.now result }
{
    let found = survey(&text.bytes[..end.at])?;
    Ok(Listed {
        text,
        end,
        cells: usize::from(found.counts.cells),
    })
}

// The inputs of a list that is read, which are then the first in `inputs`, and how many. More than a list can have values are a wrong count of inputs.
// FORMAT 9.7, 9.8, 11.6, 11.7, 13.7
#[tactic(auto, using(crate::proofs::Responding::too_many_inputs))]
pub fn read_column(listed: Listed, inputs: &mut [i64; 256]) -> Result<usize, Refused>
    requires { InputsGiven listed.text.bytes.now listed.end listed.cells }
    ensures { ColumnYield listed.entry.text.bytes.now listed.entry.end listed.entry.cells inputs.new result }
{
    let Listed { text, end, .. } = listed;
    let read = read_inputs(text, end.at + 4, inputs);
    let count = read.map_err(|i| Refusal::NoLine.at(end.lines + 1 + i))?;
    if inputs.len() < count {
        return Err(Refusal::InputCount.at(0));
    }
    Ok(count)
}
