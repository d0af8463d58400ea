// The inverse of a remainder modulo a prime, by Euclid's steps. The multiples are kept as remainders, so that no number is
// signed, and each step is one division, one product and one difference.
ghost use Rattle.std.specs.Prelude.{◌≡◌, ◌<◌};
ghost use Rattle.algebra.specs.Prime.{Prime};
ghost use Rattle.algebra.specs.Congruence.{inverse};
ghost use Rattle.number.specs.Euclid.{EuclidStep};

use super::residue::{Residue, difference, product};

// The w below p with t · w = 1 modulo p.
pub fn inverse_of(t: Residue, p: u32) -> Residue
    requires { Prime p × (0 < t.0) × (t.0 < p) }
    ensures { result.0 ≡ inverse p t.0 }
{
    // -1 is its own inverse.
    if t.0 == p - 1 {
        return t;
    }
    euclid(p, t.0, Residue(0), Residue(1), t, p)
}

// A step of Euclid, from r0 and r1 to r1 and the remainder of r0 by r1, until that is 0. Modulo p, r0 is t · s0 and r1 is
// t · s1, so that at the end, where r0 is 1, s0 is the inverse.
fn euclid(r0: u32, r1: u32, s0: Residue, s1: Residue, t: Residue, p: u32) -> Residue
    requires { EuclidStep p t.0 r0 r1 s0.0 s1.0 }
    ensures { result.0 ≡ inverse p t.0 }
{
    if r1 == 0 {
        s0
    } else {
        let q = product(Residue(r0 / r1), s1, p);
        let s2 = difference(s0, q, p);
        euclid(r1, r0 % r1, s1, s2, t, p)
    }
}
