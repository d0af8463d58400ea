// Reading a span line, which makes no value: the ends that it answers with are the new ends of v. Only a span has a shift that is read: a type
// for it, which would keep its bound, would be of one number of one kind of line.
ghost use Rattle.std.specs.Prelude.{◌≡◌, IfOk, cond, ◌-◌, ◌≤◌, pos, ◌+ℤ◌, length};
ghost use Rattle.meaning.specs.Word.{span};
ghost use Rattle.meaning.specs.Known.{ends, larger, smaller, digit_rule};
ghost use Rattle.meaning.specs.Known.{Known as Meant};
ghost use Rattle.meaning.specs.Gadget.Span.{shared};
ghost use Rattle.number.specs.Bounded.{Bounded};
ghost use Rattle.rules.specs.Ready.{Small, Represented, BoundedEnds, greatest};
ghost use Rattle.rules.specs.Yield.{refuses, span_yield, made_meaning, line_with, ends_meaning};
ghost use Rattle.rules.specs.Rule.{shared_yield};

use super::base::Digits;
use super::ends::Ends;
use super::known::Known;
use number::whole::{Whole, in_range, whole_at, whole_sum, wide_whole};
use refusal::Refusal;

// Beside its base and digit count, rule 6 asks of a span that its shift lies in -M..M. FORMAT 4.3, 10.6
#[tactic(auto, using(crate::proofs::DigitKinds::span_laws))]
pub fn read_span(known: Known, numbers: &[i64]) -> Result<Ends, Refusal>
    requires { (4 ≤ length numbers.now) × Small 4 numbers.now }
    ensures yields { (s : Meant) → Represented s known.entry.p known.entry.cells known.entry.ends.now
        → made_meaning result ≡ span_yield s (line_with span numbers.now) }
    ensures sized { IfOk result (BoundedEnds greatest) }
{
    let shift = whole_at(numbers, 3);
    let ranged = in_range(shift, known.p);
    let (digits, old) = known.begin_one(numbers, ranged, 0, 1, 0)?;
    span_ends(known, digits, old, shift)
}

// The new ends, where the digit rule is kept.
#[tactic(auto, using(crate::proofs::Digits::digit_rules), unfolding(meaning::specs::Gadget::Span::shared, meaning::specs::Gadget::Span::span_top))]
fn span_ends(known: Known, digits: Digits, old: Ends, shift: Whole) -> Result<Ends, Refusal>
    requires { BoundedEnds greatest old × Bounded greatest shift.0 }
    ensures yields { made_meaning result
        ≡ cond (digit_rule known.entry.p digits.base digits.count (ends_meaning old) shift.0) (shared_yield (shared digits.base digits.count shift.0 (ends_meaning old))) (refuses 10) }
    ensures sized { IfOk result (BoundedEnds greatest) }
{
    let c = digits.power(known.p)?;
    if !known.is_narrow(c, old, shift) {
        return Err(Refusal::DigitsTooWide);
    }
    shared_ends(old, shift, c - 1)
}

// What the old ends and L..L+c-1 share, where they share a number. FORMAT 5.10, 10.12
#[tactic(auto, unfolding(meaning::specs::Known::larger, meaning::specs::Known::smaller))]
fn shared_ends(old: Ends, shift: Whole, last: u64) -> Result<Ends, Refusal>
    requires { (last ≤ greatest) × Bounded greatest shift.0 }
    ensures yields { made_meaning result ≡ shared_yield (ends (larger old.low.0 shift.0) (smaller old.high.0 (shift.0 +ℤ pos last))) }
    ensures sized { BoundedEnds greatest old → IfOk result (BoundedEnds greatest) }
{
    let top = whole_sum(shift, wide_whole(last));
    let low = old.low.max(shift);
    let high = old.high.min(top);
    if high < low {
        return Err(Refusal::NothingShared);
    }
    Ok(Ends { low, high })
}
