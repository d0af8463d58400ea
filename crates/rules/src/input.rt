// Reading an input line: it asks only for room, and its value may be any whole number of the signed range.
ghost use Rattle.std.specs.Prelude.{◌≡◌, IfOk, []};
ghost use Rattle.meaning.specs.Word.{input};
ghost use Rattle.meaning.specs.Known.{Known as Meant};
ghost use Rattle.rules.specs.Ready.{Represented, BoundedEnds, greatest};
ghost use Rattle.rules.specs.Yield.{yield_of, made_meaning, line_with};

use super::ends::Ends;
use super::known::Known;
use number::whole::{highest, lowest};
use refusal::Refusal;

#[tactic(auto, using(crate::proofs::Inputs::input_laws), unfolding(meaning::specs::Number::lowest, meaning::specs::Number::highest, meaning::specs::Number::half))]
pub fn read_input(known: Known) -> Result<Ends, Refusal>
    ensures yields { (s : Meant) → Represented s known.entry.p known.entry.cells known.entry.ends.now
        → made_meaning result ≡ yield_of s (line_with input []) }
    ensures sized { IfOk result (BoundedEnds greatest) }
{
    known.early_broken(true, 1, 1)?;
    Ok(Ends {
        low: lowest(known.p),
        high: highest(known.p),
    })
}
