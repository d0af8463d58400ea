// The known ends of a value, and of what is made of two values. Whole numbers are added and compared by the functions of number, so that no
// kind of line has arithmetic on signed words of its own.
ghost use Rattle.std.specs.Prelude.{◌≡◌};
ghost use Rattle.meaning.specs.Known.{apart};
ghost use Rattle.rules.specs.Yield.{ends_meaning};
ghost use Rattle.rules.specs.Rule.{greater_ends};
ghost use Rattle.rules.specs.Ready.{BoundedEnds, greatest_apart, greatest};

use number::whole::{Whole, whole_difference};

// The lowest and the highest number that a value can be. How large they are is no ghost field but stands in the clauses: differences and
// products of ends are ends too, with other bounds (`greatest_apart`, `greatest_product`), and a second struct for these would want `apart`,
// `greater` and the fields once more. What is made of two ends is made by functions and no methods, as the definitions in meaning are
// written: neither value of `greater` comes before the other.
#[derive(Clone, Copy)]
pub struct Ends {
    pub low: Whole,
    pub high: Whole,
}

// The ends of one number.
impl From<Whole> for Ends {
    ghost from_gives = { λ x e. (e.low.0 ≡ x.0) × (e.high.0 ≡ x.0) };

    fn from(x: Whole) -> Ends {
        Ends { low: x, high: x }
    }
}

// The ends of the difference of two values. FORMAT 5.12
#[tactic(auto, unfolding(meaning::specs::Known::apart))]
pub fn apart(u: Ends, v: Ends) -> Ends
    requires { BoundedEnds greatest u × BoundedEnds greatest v }
    ensures { BoundedEnds greatest_apart result × (ends_meaning result ≡ apart (ends_meaning u) (ends_meaning v)) }
{
    Ends {
        low: whole_difference(u.low, v.high),
        high: whole_difference(u.high, v.low),
    }
}

// The ends of the greater of two values.
#[tactic(auto, unfolding(meaning::specs::Known::larger))]
pub fn greater(u: Ends, v: Ends) -> Ends
    ensures sized { BoundedEnds greatest u → BoundedEnds greatest v → BoundedEnds greatest result }
    ensures greater { ends_meaning result ≡ greater_ends (ends_meaning u) (ends_meaning v) }
{
    Ends {
        low: u.low.max(v.low),
        high: u.high.max(v.high),
    }
}
