// Powers up to a cap, for every base and exponent: nothing wraps, since the factors of a product are at most the cap, which a u32 holds. The library's
// `checked_pow` multiplies k times: with it reading lines of 30 binary digits takes half as long again as with the halving of the exponent (docs/SPEED.md).
ghost use Rattle.std.specs.Prelude.{◌≡◌};
ghost use Rattle.number.specs.Power.{capped_power};

// b to the power of k, where it is at most the cap. The powers of 0 and 1 are answered at once. From 2 on b^k is c · base^n in each turn; a turn
// halves n and squares the base.
pub fn capped_power(b: u64, k: u32, cap: u32) -> Option<u64>
    ensures { result ≡ capped_power b k cap }
{
    let most = u64::from(cap);
    if b <= 1 {
        let c = if k == 0 { 1 } else { b };
        return if c <= most { Some(c) } else { None };
    }
    if most == 0 {
        return None;
    }
    let mut c: u64 = 1;
    let mut base = b;
    let mut n = k;
    while 0 < n {
        if most < base {
            return None;
        }
        let factor = if n % 2 == 1 { base } else { 1 };
        c *= factor;
        if most < c {
            return None;
        }
        base *= base;
        n /= 2;
    }
    Some(c)
}
