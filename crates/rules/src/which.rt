// Reading a which line.
ghost use Rattle.std.specs.Prelude.{◌≡◌, IfOk, ◌≤◌, pos, length};
ghost use Rattle.meaning.specs.Word.{which};
ghost use Rattle.meaning.specs.Known.{ends, apart, digit_rule};
ghost use Rattle.meaning.specs.Known.{Known as Meant};
ghost use Rattle.meaning.specs.Gadget.Sign.{sign_shift};
ghost use Rattle.rules.specs.Rule.{rule_yield};
ghost use Rattle.rules.specs.Ready.{Represented, BoundedEnds, greatest};
ghost use Rattle.rules.specs.Yield.{yield_of, made_meaning, line_with, ends_meaning};

use super::base::Digits;
use super::ends::{Ends, apart};
use super::known::Known;
use number::Whole;
use refusal::Refusal;

#[tactic(auto, using(crate::proofs::DigitKinds::which_laws))]
pub fn read_which(known: Known, numbers: &[i64]) -> Result<Ends, Refusal>
    requires { 4 ≤ length numbers.now }
    ensures yields { (s : Meant) → Represented s known.entry.p known.entry.cells known.entry.ends.now
        → made_meaning result ≡ yield_of s (line_with which numbers.now) }
    ensures sized { IfOk result (BoundedEnds greatest) }
{
    let (digits, u, v) = known.begin_two(numbers, 1, 3)?;
    which_ends(known, digits, u, v)
}

// The ends 0..1, where the digit rule is kept over u - v. FORMAT 5.7, 6.2, 10.10
fn which_ends(known: Known, digits: Digits, u: Ends, v: Ends) -> Result<Ends, Refusal>
    requires { BoundedEnds greatest u × BoundedEnds greatest v }
    ensures yields { made_meaning result ≡ rule_yield (digit_rule known.entry.p digits.base digits.count (apart (ends_meaning u) (ends_meaning v)) (sign_shift digits.base digits.count)) (ends (pos 0) (pos 1)) }
    ensures sized { IfOk result (BoundedEnds greatest) }
{
    if !known.sign_rule(digits, apart(u, v)) {
        return Err(Refusal::DigitsTooWide);
    }
    Ok(Ends {
        low: Whole::from(0u32),
        high: Whole::from(1u32),
    })
}
