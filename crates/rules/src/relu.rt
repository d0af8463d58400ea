// Reading a relu line.
ghost use Rattle.std.specs.Prelude.{◌≡◌, IfOk, ◌≤◌, pos, length};
ghost use Rattle.meaning.specs.Word.{relu};
ghost use Rattle.meaning.specs.Known.{ends, digit_rule};
ghost use Rattle.meaning.specs.Known.{Known as Meant};
ghost use Rattle.meaning.specs.Gadget.Sign.{sign_shift};
ghost use Rattle.rules.specs.Rule.{rule_yield, greater_ends};
ghost use Rattle.rules.specs.Ready.{Represented, BoundedEnds, greatest};
ghost use Rattle.rules.specs.Yield.{yield_of, made_meaning, line_with, ends_meaning};

use super::base::Digits;
use super::ends::{Ends, greater};
use super::known::Known;
use number::Whole;
use refusal::Refusal;

#[tactic(auto, using(crate::proofs::DigitKinds::relu_laws))]
pub fn read_relu(known: Known, numbers: &[i64]) -> Result<Ends, Refusal>
    requires { 3 ≤ length numbers.now }
    ensures yields { (s : Meant) → Represented s known.entry.p known.entry.cells known.entry.ends.now
        → made_meaning result ≡ yield_of s (line_with relu numbers.now) }
    ensures sized { IfOk result (BoundedEnds greatest) }
{
    let (digits, old) = known.begin_one(numbers, true, 1, 1, 3)?;
    relu_ends(known, digits, old)
}

// The ends of the greater of 0 and the value, where the digit rule is kept. FORMAT 5.6, 6.2, 10.10
fn relu_ends(known: Known, digits: Digits, old: Ends) -> Result<Ends, Refusal>
    requires { BoundedEnds greatest old }
    ensures yields { made_meaning result ≡ rule_yield (digit_rule known.entry.p digits.base digits.count (ends_meaning old) (sign_shift digits.base digits.count))
        (greater_ends (ends (pos 0) (pos 0)) (ends_meaning old)) }
    ensures sized { IfOk result (BoundedEnds greatest) }
{
    if !known.sign_rule(digits, old) {
        return Err(Refusal::DigitsTooWide);
    }
    Ok(greater(Ends::from(Whole::from(0u32)), old))
}
