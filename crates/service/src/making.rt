// Making the table of a list for a column of inputs. The lines are worked first, and only when every statement is found true is the table
// written.
ghost use Rattle.std.specs.Prelude.{◌≡◌, ◌<◌, length};
ghost use Rattle.meaning.specs.Number.{in_range};
ghost use Rattle.meaning.specs.Work.{work};
ghost use Rattle.meaning.specs.Reply.{first_fail, refusal_at, making, filled, made};
ghost use Rattle.service.specs.Reply.{reply_meaning, Makes};
ghost use Rattle.service.specs.Walk.{ListRead, CountsGiven};
ghost use Rattle.service.specs.Make.{inputs_meaning, WorkGiven};

use super::working::work_lines;
use super::writing::write_lines;
use number::whole::{in_range, whole_at};
use reader::{Surveyed, survey};
use refusal::{Refusal, Refused};

// The public call: for every list, column and table the reply of the definitions, and the table that it leaves. FORMAT 9.7, 9.8
pub fn make(list: &[u8], inputs: &[i64], table: &mut [u32]) -> Result<(), Refused>
    ensures { Makes list.now inputs.now table.old result table.new }
{
    let found = survey(list)?;
    make_table(list, found, inputs, table)
}

// A table for a list that is read, of which this was found. FORMAT 10.13, 10.16, 13.7
fn make_table(
    list: &[u8],
    found: Surveyed,
    inputs: &[i64],
    table: &mut [u32],
) -> Result<(), Refused>
    requires { CountsGiven list.now found.p found.counts }
    ensures { (l : ListRead list.now)
        → making (reply_meaning result) table.new ≡ made l.last l.lines inputs.now table.old }
{
    if table.len() != usize::from(found.counts.cells) {
        return Err(Refusal::TableLength.at(0));
    }
    if inputs.len() != found.counts.inputs {
        return Err(Refusal::InputCount.at(0));
    }
    if let Some(i) = first_outside(inputs, found.p) {
        return Err(Refusal::InputOffRange.at(i));
    }
    make_true(list, found.p, inputs, table)
}

// The place of the first input outside -M..M. FORMAT 10.17
#[tactic(auto, using(crate::proofs::Scan::first_at), unfolding(crate::specs::Make::inputs_meaning, meaning::specs::Reply::refusal_at))]
fn first_outside(inputs: &[i64], p: u32) -> Option<usize>
    requires { 0 < p }
    ensures { inputs_meaning result ≡ refusal_at 17 (first_fail (in_range p) 0 inputs.now) }
{
    // By index: a whole number is read out of lent memory at its place (`whole_at`), a rule of the project. `find` over the places was tried, and
    // that it answers the first of them whose input lies outside is not proved.
    for i in 0..inputs.len() {
        if !in_range(whole_at(inputs, i), p) {
            return Some(i);
        }
    }
    None
}

// The lines are worked, and then their cells are written, all of them or none.
fn make_true(list: &[u8], p: u32, inputs: &[i64], table: &mut [u32]) -> Result<(), Refused>
    requires { (a : WorkGiven list.now inputs.now) × (a.listed.last.p ≡ p) × (length table.old ≡ a.listed.last.cells) }
    ensures { (l : ListRead list.now)
        → making (reply_meaning result) table.new ≡ filled (work l.lines inputs.now) table.old }
{
    // The values so far are the first ones of the array: fixed memory, no heap.
    let mut values: [i64; 256] = [0; 256];
    work_lines(list, inputs, &mut values)?;
    write_lines(list, p, &values, table);
    Ok(())
}
