// Working a list for a column of inputs: the values of its lines, or the first line whose statement is false.
ghost use Rattle.std.specs.Prelude.{◌≡◌, ◌<◌, pos, length, get_or, Some};
ghost use Rattle.number.specs.declared.whole.Whole.{Whole};
ghost use Rattle.service.specs.Walk.{ListRead};
ghost use Rattle.service.specs.Make.{with_value, WorkGiven, WorkingYield};

use super::walk::Walk;
use number::Whole;
use number::whole::{set_whole, whole_at};
use refusal::Refused;
use table::line_works::line_works;
use text::MOST_NUMBERS;

// The input at a place, and 0 where there is none, as `work_from` of `meaning` has it: only a line `in` takes it, and each has one. By `whole_at`, a
// rule of the project: `get` would hand out a plain i64.
fn input_at(inputs: &[i64], at: usize) -> Whole
    ensures { result.0 ≡ get_or inputs.now at (pos 0) }
{
    if at < inputs.len() {
        whole_at(inputs, at)
    } else {
        Whole::from(0u32)
    }
}

// Takes in the value that a line makes, where it makes one.
fn take_value(values: &mut [i64], at: usize, made: Option<Whole>)
    requires { (x : Whole) → made ≡ Some x → at < length values.old }
    ensures { values.new ≡ with_value values.old at made }
{
    if let Some(x) = made {
        set_whole(values, at, x);
    }
}

// Every line is worked on the values of the lines before it, until a statement is false. The values so far are the first ones of the array: fixed
// memory, no heap. FORMAT 8.3, 8.4, 10.18
pub fn work_lines(list: &[u8], inputs: &[i64], values: &mut [i64; 256]) -> Result<(), Refused>
    requires { WorkGiven list.now inputs.now }
    ensures { (l : ListRead list.now) → WorkingYield l.lines l.last inputs.now values.new result }
{
    let mut numbers = [0; MOST_NUMBERS];
    let mut walk = Walk::over(list);
    while let Some(line) = walk.next(&mut numbers) {
        let input = input_at(inputs, line.before.inputs);
        let made = line_works(
            line.word,
            &numbers[..line.count],
            &values[..line.before.values],
            input,
        )
        .map_err(|refusal| refusal.at(line.number))?;
        take_value(values, line.before.values, made);
    }
    Ok(())
}
