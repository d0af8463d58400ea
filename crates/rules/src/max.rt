// Reading a max line.
ghost use Rattle.std.specs.Prelude.{◌≡◌, IfOk, ◌&&◌, ◌≤◌, pos, length};
ghost use Rattle.meaning.specs.Word.{max};
ghost use Rattle.meaning.specs.Known.{above, digit_rule};
ghost use Rattle.meaning.specs.Known.{Known as Meant};
ghost use Rattle.rules.specs.Ready.{Represented, BoundedEnds, greatest_apart, greatest};
ghost use Rattle.rules.specs.Yield.{yield_of, made_meaning, line_with, ends_meaning};
ghost use Rattle.rules.specs.Rule.{rule_yield, greater_ends, narrow};

use super::base::Digits;
use super::ends::{Ends, apart, greater};
use super::known::Known;
use number::Whole;
use refusal::Refusal;

#[tactic(auto, using(crate::proofs::DigitKinds::max_laws))]
pub fn read_max(known: Known, numbers: &[i64]) -> Result<Ends, Refusal>
    requires { 4 ≤ length numbers.now }
    ensures yields { (s : Meant) → Represented s known.entry.p known.entry.cells known.entry.ends.now
        → made_meaning result ≡ yield_of s (line_with max numbers.now) }
    ensures sized { IfOk result (BoundedEnds greatest) }
{
    let (digits, u, v) = known.begin_two(numbers, 2, 1)?;
    max_ends(known, digits, u, v)
}

// The ends of y, the greater of u and v, where the digit rule is kept over y - u and over y - v with shift 0: both have the same c = b^k.
// FORMAT 5.8, 6.2, 10.10
#[tactic(auto, using(crate::proofs::Digits::digit_rules))]
fn max_ends(known: Known, digits: Digits, u: Ends, v: Ends) -> Result<Ends, Refusal>
    requires { BoundedEnds greatest u × BoundedEnds greatest v }
    ensures yields { made_meaning result
        ≡ rule_yield (digit_rule known.entry.p digits.base digits.count (above (ends_meaning u) (ends_meaning v)) (pos 0)
        && digit_rule known.entry.p digits.base digits.count (above (ends_meaning v) (ends_meaning u)) (pos 0))
        (greater_ends (ends_meaning u) (ends_meaning v)) }
    ensures sized { IfOk result (BoundedEnds greatest) }
{
    let c = digits.power(known.p)?;
    if !are_narrow(known, c, u, v) {
        return Err(Refusal::DigitsTooWide);
    }
    Ok(greater(u, v))
}

// Whether the digit rule is kept over y - u and over y - v with shift 0, where c is at most p.
fn are_narrow(known: Known, c: u64, u: Ends, v: Ends) -> bool
    requires { (1 ≤ c) × (c ≤ known.p) × BoundedEnds greatest u × BoundedEnds greatest v }
    ensures { result ≡ narrow known.entry.p c (above (ends_meaning u) (ends_meaning v)) (pos 0)
        && narrow known.entry.p c (above (ends_meaning v) (ends_meaning u)) (pos 0) }
{
    let zero = Whole::from(0u32);
    known.is_narrow(c, above(u, v), zero) && known.is_narrow(c, above(v, u), zero)
}

// The ends of y - u.
#[tactic(auto, unfolding(meaning::specs::Known::above, meaning::specs::Known::apart, meaning::specs::Known::larger, meaning::specs::Known::smaller))]
fn above(u: Ends, v: Ends) -> Ends
    requires { BoundedEnds greatest u × BoundedEnds greatest v }
    ensures { BoundedEnds greatest_apart result × (ends_meaning result ≡ above (ends_meaning u) (ends_meaning v)) }
{
    let between = apart(v, u);
    let zero = Whole::from(0u32);
    Ends {
        low: zero.min(between.low),
        high: zero.max(between.high),
    }
}
