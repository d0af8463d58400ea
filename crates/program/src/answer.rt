// Answers: each is written where it has room in the output, and else nothing is. How long it is is returned, and 0 where it has no room: a number and
// not an Option, as that is what the call replies. Two functions of three lines: a trait of what is written would be two methods with their laws
// and two impls, for one call each. FORMAT 9.16
ghost use Rattle.std.specs.Prelude.{◌≤◌, length};
ghost use Rattle.meaning.specs.Refusal.{cell_limit};
ghost use Rattle.meaning.specs.Program.{refusal_text, table_text};
ghost use Rattle.refusal.specs.Refusal.{refused_reply};
ghost use Rattle.program.specs.Answered.{Answered};

use super::answer_text::{refusal_length, table_length, write_refusal, write_table};
use refusal::Refused;

#[tactic(auto, using(crate::proofs::Lengths::answers))]
pub fn answer_refusal(output: &mut [u8], refused: Refused) -> usize
    ensures { Answered (refusal_text (refused_reply refused)) output.old output.new result }
{
    if output.len() < refusal_length(refused) {
        return 0;
    }
    write_refusal(output, refused)
}

#[tactic(auto, using(crate::proofs::Lengths::answers))]
pub fn answer_table(output: &mut [u8], table: &[u32]) -> usize
    requires { length table.now ≤ cell_limit }
    ensures { Answered (table_text table.now) output.old output.new result }
{
    if output.len() < table_length(table) {
        return 0;
    }
    write_table(output, table)
}
