// The base and the digit count of a line.
ghost use Rattle.rules.specs.Digits.{DigitsKept};

use number::power::capped_power;
use number::whole::{Whole, size_of, whole_at};
use refusal::Refusal;

// As rule 6 lets them through: b is at least 2, k from 1 to 31.
#[derive(Clone, Copy)]
pub struct Digits {
    pub base: u64,
    pub count: u32,
    pub ghost kept: { DigitsKept base count },
}

impl Digits {
    ghost use Rattle.std.specs.Prelude.{◌≡◌, ◌+◌, ◌^◌, ◌<◌, length, get_or, pos, IfOk, IfErr};
    ghost use Rattle.refusal.specs.declared.refused.Refusal.TheVariants.{DigitsTooWide};
    ghost use Rattle.rules.specs.Digits.{PowerWithin};
    ghost use Rattle.rules.specs.Rule.{digits_allowed, digits_meaning};

    // The base at a place and the digit count after it, where they are allowed.
    pub fn at(numbers: &[i64], at: usize) -> Option<Digits>
        requires { at + 1 < length numbers.now }
        ensures { digits_meaning result ≡ digits_allowed (get_or numbers.now at (pos 0)) (get_or numbers.now (at + 1) (pos 0)) }
    {
        Digits::of(whole_at(numbers, at), whole_at(numbers, at + 1))
    }

    // b and k, where 2 <= b and 1 <= k <= 31. The library has no `From` from a usize to another word, nor from a u32 to a usize.
    // FORMAT 4.1, 4.2, 10.6
    #[tactic(auto, unfolding(meaning::specs::Refusal::is_digits, meaning::specs::Number::between))]
    fn of(b: Whole, k: Whole) -> Option<Digits>
        ensures { digits_meaning result ≡ digits_allowed b.0 k.0 }
    {
        if b < Whole::from(2u32) || k < Whole::from(1u32) || Whole::from(31u32) < k {
            return None;
        }
        Some(Digits {
            base: size_of(b) as u64,
            count: size_of(k) as u32,
        })
    }

    // c = b^k, where it is at most p. FORMAT 6.1, 10.10
    #[tactic(auto, using(crate::proofs::Digits::power_within, crate::proofs::Digits::power_above))]
    pub fn power(self, p: u32) -> Result<u64, Refusal>
        ensures within { IfOk result (λ c. PowerWithin p self.base self.count c) }
        ensures above { IfErr result (λ broken. (broken ≡ DigitsTooWide) × (p < self.base ^ self.count)) }
    {
        capped_power(self.base, self.count, p).ok_or(Refusal::DigitsTooWide)
    }
}
