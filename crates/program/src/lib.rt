// The product's program as a function on bytes: a list, the line `end` and the inputs are answered by the table or by a refusal.
#![tactic(auto)]

mod answer;
mod answer_text;
mod input;
mod reading;

ghost use Rattle.std.specs.Prelude.{◌≡◌, ◌≤◌, length, replicate};
ghost use Rattle.meaning.specs.Refusal.{cell_limit};
ghost use Rattle.meaning.specs.Text.{lines_of};
ghost use Rattle.meaning.specs.Program.{parts_of, on_parts, respond as response_to};
ghost use Rattle.program.specs.Answered.{Answered};
ghost use Rattle.program.specs.Made.{InputsGiven, ColumnGiven, made_text};

use answer::{answer_refusal, answer_table};
use reading::{Listed, read_column, read_list};
use refusal::Refused;
use service::make;

// The public call: for every input the program's answer, where it has room in the output. FORMAT 9.16, 11.11
pub fn respond(input: &[u8], output: &mut [u8]) -> usize
    ensures { Answered (response_to input.now) output.old output.new result }
{
    match read_list(input) {
        Ok(listed) => answer_list(listed, output),
        Err(refused) => answer_refusal(output, refused),
    }
}

// The answer where the list is read.
fn answer_list(listed: Listed, output: &mut [u8]) -> usize
    requires { InputsGiven listed.text.bytes.now listed.end listed.cells }
    ensures { Answered (on_parts (parts_of (lines_of listed.entry.text.bytes.now))) output.old output.new result }
{
    // Room for as many inputs as a list can have, fixed memory; how many there are is answered.
    let mut inputs: [i64; 256] = [0; 256];
    match read_column(listed, &mut inputs) {
        Ok(count) => answer_made(listed, &inputs[..count], output),
        Err(refused) => answer_refusal(output, refused),
    }
}

// The answer where its inputs are numbers too.
fn answer_made(listed: Listed, inputs: &[i64], output: &mut [u8]) -> usize
    requires { InputsGiven listed.text.bytes.now listed.end listed.cells × ColumnGiven listed.text.bytes.now listed.end listed.cells inputs.now }
    ensures { Answered (on_parts (parts_of (lines_of listed.entry.text.bytes.now))) output.old output.new result }
{
    // Room for the cells of any list, fixed memory. It is 16 KiB that are set to 0, which only what can be made pays for.
    let mut table: [u32; 4096] = [0; 4096];
    answer_within(listed, inputs, &mut table, output)
}

// The same within a table that is all 0: the first cells of it, or the refusal of making them.
fn answer_within(
    listed: Listed,
    inputs: &[i64],
    table: &mut [u32; 4096],
    output: &mut [u8],
) -> usize
    requires { InputsGiven listed.text.bytes.now listed.end listed.cells × ColumnGiven listed.text.bytes.now listed.end listed.cells inputs.now
        × (table.old ≡ replicate cell_limit 0) }
    ensures { Answered (on_parts (parts_of (lines_of listed.entry.text.bytes.now))) output.old output.new result }
{
    let list = &listed.text.bytes[..listed.end.at];
    let made = make(list, inputs, &mut table[..listed.cells]);
    answer_making(made, &table[..listed.cells], output)
}

// What making answers: the table, or the refusal that it replies.
fn answer_making(made: Result<(), Refused>, table: &[u32], output: &mut [u8]) -> usize
    requires { length table.now ≤ cell_limit }
    ensures { Answered (made_text table.now made) output.old output.new result }
{
    match made {
        Ok(()) => answer_table(output, table),
        Err(refused) => answer_refusal(output, refused),
    }
}
