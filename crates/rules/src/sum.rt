// Reading a sum line: every coefficient is in the range and every name made, and the ends stay in the range after each step.
// That there is a constant and then pairs stays a clause of the four functions: a struct of both would be made for one call.
ghost use Rattle.std.specs.Prelude.{◌≡◌, IfOk, true, ◌∷◌, ◌%◌, ◌≤◌, ◌<◌, pos, length, get_or, drop};
ghost use Rattle.meaning.specs.Word.{sum, alternate};
ghost use Rattle.meaning.specs.Number.{in_range};
ghost use Rattle.meaning.specs.Known.{ends};
ghost use Rattle.meaning.specs.Known.{Known as Meant};
ghost use Rattle.meaning.specs.Refusal.{all, is_made};
ghost use Rattle.meaning.specs.Gadget.Sum.{terms_of, scaled, added, ends_in_range};
ghost use Rattle.number.specs.Bounded.{Bounded};
ghost use Rattle.rules.specs.Ready.{Small, Represented, BoundedEnds, greatest_product, greatest};
ghost use Rattle.rules.specs.Yield.{yield_of, made_meaning, line_with, ends_meaning};
ghost use Rattle.rules.specs.Sum.{sum_yield};

use super::ends::Ends;
use super::known::Known;
use number::whole::{Whole, in_range, whole_at, whole_product, whole_sum};
use refusal::Refusal;

// c0, then pairs of a coefficient and a name. FORMAT 4.5
#[tactic(auto, using(crate::proofs::SumLine::sum_laws))]
pub fn read_sum(known: Known, numbers: &[i64]) -> Result<Ends, Refusal>
    requires { (length numbers.now % 2 ≡ 1) × Small (length numbers.now) numbers.now }
    ensures yields { (s : Meant) → Represented s known.entry.p known.entry.cells known.entry.ends.now
        → made_meaning result ≡ yield_of s (line_with sum numbers.now) }
    ensures sized { IfOk result (BoundedEnds greatest) }
{
    if !coefficients_ranged(known, numbers) {
        return Err(Refusal::NumberOffRange);
    }
    known.early_broken(names_made(known, numbers), 1, 1)?;
    sum_ends(known, numbers)
}

// c0, c1, c2, ..: the numbers at 0, 1, 3, 5, .. FORMAT 4.4, 10.6
fn coefficients_ranged(known: Known, numbers: &[i64]) -> bool
    requires { length numbers.now % 2 ≡ 1 }
    ensures { result ≡ all (in_range known.entry.p) (get_or numbers.now 0 (pos 0) ∷ alternate (drop 1 numbers.now)) }
{
    in_range(whole_at(numbers, 0), known.p)
        && numbers[1..]
            .chunks_exact(2)
            .all(|term| in_range(whole_at(term, 0), known.p))
}

// v1, v2, ..: the numbers at 2, 4, ..
fn names_made(known: Known, numbers: &[i64]) -> bool
    requires { length numbers.now % 2 ≡ 1 }
    ensures { result ≡ all (is_made (length known.entry.ends.now)) (alternate (drop 2 numbers.now)) }
{
    numbers[1..]
        .chunks_exact(2)
        .all(|term| known.names(whole_at(term, 1)))
}

// The ends after the constant and after each term, until they leave the range. FORMAT 5.4, 5.5, 10.11
fn sum_ends(known: Known, numbers: &[i64]) -> Result<Ends, Refusal>
    requires { (length numbers.now % 2 ≡ 1) × Small (length numbers.now) numbers.now × (in_range known.p (get_or numbers.now 0 (pos 0)) ≡ true)
        × (all (is_made (length known.ends.now)) (alternate (drop 2 numbers.now)) ≡ true) }
    ensures yields { made_meaning result ≡ sum_yield known.entry.p known.entry.ends.now
        (ends (get_or numbers.now 0 (pos 0)) (get_or numbers.now 0 (pos 0)))
        (terms_of (drop 1 numbers.now)) }
    ensures sized { IfOk result (BoundedEnds greatest) }
{
    let mut so_far = Ends::from(whole_at(numbers, 0));
    for term in numbers[1..].chunks_exact(2) {
        let value = known.ends_of(whole_at(term, 1));
        so_far = plus(so_far, scaled(whole_at(term, 0), value));
        if !is_within(known.p, so_far) {
            return Err(Refusal::SumOffRange);
        }
    }
    Ok(so_far)
}

// The ends of c times a value.
#[tactic(auto, using(crate::proofs::SumLine::product_sized), unfolding(meaning::specs::Gadget::Sum::scaled, meaning::specs::Known::larger, meaning::specs::Known::smaller))]
fn scaled(c: Whole, e: Ends) -> Ends
    requires { Bounded greatest c.0 × BoundedEnds greatest e }
    ensures sized { BoundedEnds greatest_product result }
    ensures scaled { ends_meaning result ≡ scaled c.0 (ends_meaning e) }
{
    let one = whole_product(c, e.low);
    let other = whole_product(c, e.high);
    Ends {
        low: one.min(other),
        high: one.max(other),
    }
}

// The ends so far and those of one more term, added.
#[tactic(auto, unfolding(meaning::specs::Gadget::Sum::added))]
fn plus(a: Ends, b: Ends) -> Ends
    requires { BoundedEnds greatest a × BoundedEnds greatest_product b }
    ensures { ends_meaning result ≡ added (ends_meaning a) (ends_meaning b) }
{
    Ends {
        low: whole_sum(a.low, b.low),
        high: whole_sum(a.high, b.high),
    }
}

// Whether both ends lie in -M..M.
#[tactic(auto, unfolding(meaning::specs::Gadget::Sum::ends_in_range))]
fn is_within(p: u32, e: Ends) -> bool
    requires { 3 ≤ p }
    ensures { result ≡ ends_in_range p (ends_meaning e) }
{
    in_range(e.low, p) && in_range(e.high, p)
}
