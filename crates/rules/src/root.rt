// Reading a root line.
ghost use Rattle.std.specs.Prelude.{◌≡◌, IfOk, ◌^◌, ◌≤◌, length};
ghost use Rattle.meaning.specs.Word.{root};
ghost use Rattle.meaning.specs.Known.{Known as Meant};
ghost use Rattle.rules.specs.Ready.{Represented, BoundedEnds, greatest};
ghost use Rattle.rules.specs.Yield.{yield_of, made_meaning, line_with};
ghost use Rattle.rules.specs.Rule.{root_yield};

use super::base::Digits;
use super::ends::Ends;
use super::known::Known;
use number::whole::{Whole, wide_whole};
use refusal::Refusal;

#[tactic(auto, using(crate::proofs::DigitKinds::root_laws))]
pub fn read_root(known: Known, numbers: &[i64]) -> Result<Ends, Refusal>
    requires { 3 ≤ length numbers.now }
    ensures yields { (s : Meant) → Represented s known.entry.p known.entry.cells known.entry.ends.now
        → made_meaning result ≡ yield_of s (line_with root numbers.now) }
    ensures sized { IfOk result (BoundedEnds greatest) }
{
    let (digits, _) = known.begin_one(numbers, true, 1, 4, 2)?;
    root_ends(known, digits)
}

// The ends 0..c-1, where c >= 3 and c² <= M+1, M = (p-1)/2. FORMAT 5.9, 6.4, 10.10
#[tactic(auto, unfolding(meaning::specs::Number::half))]
fn root_ends(known: Known, digits: Digits) -> Result<Ends, Refusal>
    ensures yields { made_meaning result ≡ root_yield known.entry.p (digits.base ^ digits.count) }
    ensures sized { IfOk result (BoundedEnds greatest) }
{
    let c = digits.power(known.p)?;
    let most = u64::from((known.p - 1) / 2 + 1);
    if c < 3 || most < c * c {
        return Err(Refusal::DigitsTooWide);
    }
    Ok(Ends {
        low: Whole::from(0u32),
        high: wide_whole(c - 1),
    })
}
