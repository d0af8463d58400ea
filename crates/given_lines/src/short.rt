// Numbers of one and of two digits, which are nearly all that a list has. The compiler makes one test of each function here, and where a number passed
// it, it knows that no more digits come: so these numbers are measured and written in few steps.
// Each has an upper end of its own, in place of one function that is given it: of fixed ends the compiler makes the one test.
ghost use Rattle.std.specs.Prelude.{◌≡◌, ◌&&◌, pos, neg_ℤ};
ghost use Rattle.std.specs.Int.Signed.{le_z, lt_z};
ghost use Rattle.meaning.specs.Number.{between};

use number::Whole;
use number::whole::{is_negative, negated};

// Whether x is -low or more.
pub fn is_down_to(x: Whole, low: u32) -> bool
    ensures { result ≡ le_z (neg_ℤ (pos low)) x.0 }
{
    negated(Whole::from(low)) <= x
}

// Whether x has at most two digits, with either sign.
#[tactic(auto, unfolding(meaning::specs::Number::between))]
pub fn is_short(x: Whole) -> bool
    ensures { result ≡ between (neg_ℤ (pos 99)) x.0 (pos 99) }
{
    is_down_to(x, 99) && x <= Whole::from(99)
}

// Whether x is negative and has at most two digits.
pub fn is_short_negative(x: Whole) -> bool
    ensures { result ≡ (le_z (neg_ℤ (pos 99)) x.0 && lt_z x.0 (pos 0)) }
{
    is_down_to(x, 99) && is_negative(x)
}
