// What is known before a line, and the rules that several kinds of lines have in common, each proved equal to its definition.
ghost use Rattle.rules.specs.Ready.{Ready};

use super::base::Digits;
use super::ends::Ends;
use number::power::capped_power;
use number::whole::{
    Whole, is_below, negated, size_of, whole_at, whole_difference, whole_sum, wide_whole,
};
use refusal::Refusal;

// As far as the rules for a line ask: p, how many cells the lines before it have, and the ends of their values.
#[derive(Clone, Copy)]
pub struct Known<'a> {
    pub p: u32,
    pub cells: usize,
    pub ends: &'a [Ends],
    pub ghost ready: { Ready p cells ends.now },
}

impl Known<'_> {
    ghost use Rattle.std.specs.Prelude.{◌≡◌, IfOk, true, ◌&&◌, ◌+◌, ◌*◌, ◌≤◌, ◌<◌, length, get_or, pos, nat_abs};
    ghost use Rattle.meaning.specs.Known.{digit_rule};
    ghost use Rattle.meaning.specs.Refusal.{is_made, cell_limit};
    ghost use Rattle.meaning.specs.Gadget.Sign.{sign_shift};
    ghost use Rattle.number.specs.Bounded.{Bounded};
    ghost use Rattle.rules.specs.Yield.{ends_meaning};
    ghost use Rattle.rules.specs.Rule.{early_broken, begun_meaning, itself, first_of_two, first_of_three, begun_at, one_begun, two_begun, narrow};
    ghost use Rattle.rules.specs.Ready.{BoundedEnds, greatest_apart, greatest, ends_at};

    // Whether a number names one of the values that are made. FORMAT 3.3, 10.7
    #[tactic(auto, unfolding(meaning::specs::Refusal::is_made))]
    pub(crate) fn names(self, name: Whole) -> bool
        ensures { result ≡ is_made (length self.entry.ends.now) name.0 }
    {
        is_below(name, self.ends.len())
    }

    // The same of two numbers.
    pub(crate) fn names_both(self, u: Whole, v: Whole) -> bool
        ensures { result ≡ is_made (length self.entry.ends.now) u.0 && is_made (length self.entry.ends.now) v.0 }
    {
        self.names(u) && self.names(v)
    }

    // The ends of the value that a number names.
    #[tactic(auto, using(crate::proofs::Tests::made_name))]
    pub(crate) fn ends_of(self, name: Whole) -> Ends
        requires { is_made (length self.ends.now) name.0 ≡ true }
        ensures sized { BoundedEnds greatest result }
        ensures known { ends_meaning result ≡ ends_at self.entry.ends.now (nat_abs name.0) }
    {
        self.ends[size_of(name)]
    }

    // Ok where the rules 7 (the names are made), 8 (room for the new values) and 9 (room for the cells) are kept, else the first of them that
    // is broken.
    // FORMAT 4.6, 4.7, 10.7, 10.8, 10.9
    pub(crate) fn early_broken(self, named: bool, new: usize, width: usize) -> Result<(), Refusal>
        requires { (new ≤ 1) × (width ≤ cell_limit) }
        ensures { result ≡ early_broken named (length self.entry.ends.now) new self.entry.cells width }
    {
        if !named {
            return Err(Refusal::NameNotMade);
        }
        if 256 < self.ends.len() + new {
            return Err(Refusal::TooManyValues);
        }
        if 4096 < self.cells + width {
            return Err(Refusal::TooManyCells);
        }
        Ok(())
    }

    // A line that names one value before its base and digit count: these, and the ends of the value. One name and two are two methods: over
    // an array of N names the test and the ends are two closures (`all`, `array::from_fn`), and that each name is made where its ends are
    // asked for was tried and is not proved. FORMAT 10.6 to 10.9
    pub(crate) fn begin_one(
        self,
        numbers: &[i64],
        ranged: bool,
        new: usize,
        each: usize,
        more: usize,
    ) -> Result<(Digits, Ends), Refusal>
        requires { (3 ≤ length numbers.now) × (new ≤ 1) × (each ≤ 4) × (more ≤ 3) }
        ensures begun { begun_meaning first_of_two result ≡ one_begun self.entry.ends.now self.entry.cells numbers.now ranged new each more }
        ensures sized { IfOk result (λ begun. BoundedEnds greatest begun.1) }
        ensures known { IfOk result (λ begun. ends_meaning begun.1 ≡ ends_at self.entry.ends.now (nat_abs (get_or numbers.now 0 (pos 0)))) }
    {
        let name = whole_at(numbers, 0);
        let digits = self.begin_line(numbers, 1, ranged, self.names(name), new, each, more)?;
        Ok((digits, self.ends_of(name)))
    }

    // The same of a line that names two values, and makes one.
    pub(crate) fn begin_two(
        self,
        numbers: &[i64],
        each: usize,
        more: usize,
    ) -> Result<(Digits, Ends, Ends), Refusal>
        requires { (4 ≤ length numbers.now) × (each ≤ 4) × (more ≤ 3) }
        ensures begun { begun_meaning first_of_three result ≡ two_begun self.entry.ends.now self.entry.cells numbers.now each more }
        ensures sized { IfOk result (λ begun. BoundedEnds greatest begun.1 × BoundedEnds greatest begun.2) }
        ensures known { IfOk result (λ begun. (ends_meaning begun.1 ≡ ends_at self.entry.ends.now (nat_abs (get_or numbers.now 0 (pos 0))))
            × (ends_meaning begun.2 ≡ ends_at self.entry.ends.now (nat_abs (get_or numbers.now 1 (pos 0))))) }
    {
        let u = whole_at(numbers, 0);
        let v = whole_at(numbers, 1);
        let named = self.names_both(u, v);
        let digits = self.begin_line(numbers, 2, true, named, 1, each, more)?;
        Ok((digits, self.ends_of(u), self.ends_of(v)))
    }

    // The base and the digit count of a line that keeps the rules 6 to 9, or the first of them that it breaks. The base stands at a place and
    // the digit count k after it. `ranged` is what else rule 6 asks of the line, and `named` what rule 7 asks; the line makes `new` values and
    // has `each` · k + `more` cells (FORMAT 4.6, 4.7). They are three small numbers and no struct: each kind writes them once, in its own reading.
    // The count is widened by `as`, as in `Digits::of`.
    fn begin_line(
        self,
        numbers: &[i64],
        at: usize,
        ranged: bool,
        named: bool,
        new: usize,
        each: usize,
        more: usize,
    ) -> Result<Digits, Refusal>
        requires { (at + 1 < length numbers.now) × (new ≤ 1) × (each ≤ 4) × (more ≤ 3) }
        ensures { begun_meaning itself result ≡ begun_at numbers.now at ranged named (length self.entry.ends.now) new self.entry.cells each more }
    {
        let digits = Digits::at(numbers, at).ok_or(Refusal::NumberOffRange)?;
        if !ranged {
            return Err(Refusal::NumberOffRange);
        }
        self.early_broken(named, new, each * digits.count as usize + more)?;
        Ok(digits)
    }

    // The digit rule with the shift -B, of relu and which. With part = b^(k-1) the power is c = part·b and B = (b-1)·part = c - part, so that
    // nothing is divided. The product fits: part is 1, or b is at most part, which is at most p. It answers a bool, as `is_narrow`, of which max
    // joins two by &&: the refusal is the caller's.
    // FORMAT 6.2, 10.10
    #[tactic(auto, using(crate::proofs::Digits::sign_rules), unfolding(meaning::specs::Gadget::Sign::sign_shift))]
    pub(crate) fn sign_rule(self, digits: Digits, e: Ends) -> bool
        requires { BoundedEnds greatest_apart e }
        ensures { result ≡ digit_rule self.entry.p digits.base digits.count (ends_meaning e) (sign_shift digits.base digits.count) }
    {
        let Some(part) = capped_power(digits.base, digits.count - 1, self.p) else {
            return false;
        };
        let c = part * digits.base;
        if u64::from(self.p) < c {
            return false;
        }
        let top = c - part;
        self.is_narrow(c, e, negated(wide_whole(top)))
    }

    // The digit rule where c = b^k is at most p: F - L and L + c - 1 - E are at most p - 1. FORMAT 6.1, 10.10
    pub(crate) fn is_narrow(self, c: u64, e: Ends, shift: Whole) -> bool
        requires { (1 ≤ c) × (c ≤ self.p) × BoundedEnds greatest_apart e × Bounded greatest shift.0 }
        ensures { result ≡ narrow self.entry.p c (ends_meaning e) shift.0 }
    {
        let last = Whole::from(self.p - 1);
        let above = whole_difference(e.high, shift);
        let top = whole_sum(shift, wide_whole(c - 1));
        let below = whole_difference(top, e.low);
        above <= last && below <= last
    }
}
