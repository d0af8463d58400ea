// Whether a number is an odd prime. Of five great primes that proof systems use it is known: 119·2^23 + 1, 15·2^27 + 1, 127·2^24 + 1,
// 2^31 - 1 and the greatest below 2^32. Of a number below 256 a table of the primes says it. For any other number the primes of the table are tried
// first, then the odd numbers from 241 on up to the square root, but for multiples of 3 and 5: each test is one division of 32-bit numbers.
#![tactic(auto)]

ghost use Rattle.std.specs.Prelude.{◌≡◌, false, ◌+◌, ◌%◌, ◌≤◌, ◌<◌, ◌==◌};
ghost use Rattle.std.specs.List.{All, list_any};
ghost use Rattle.meaning.specs.Machine.{past_u32};
ghost use Rattle.meaning.specs.Number.{odd_prime};
ghost use Rattle.primes.specs.Table.{primes};

use number::root::square_root;

// The primes below 256.
const PRIMES: [u32; 54] = [
    2, 3, 5, 7, 11, 13, 17, 19, 23, 29, 31, 37, 41, 43, 47, 53, 59, 61, 67, 71, 73, 79, 83, 89, 97,
    101, 103, 107, 109, 113, 127, 131, 137, 139, 149, 151, 157, 163, 167, 173, 179, 181, 191, 193,
    197, 199, 211, 223, 227, 229, 233, 239, 241, 251,
];

// The numbers below 30 that have no factor 2, 3 or 5.
const WHEEL: [u32; 8] = [1, 7, 11, 13, 17, 19, 23, 29];

#[tactic(auto, using(crate::proofs::PrimeTable::table_decides))]
pub fn is_odd_prime(n: u32) -> bool
    ensures { result ≡ odd_prime n }
{
    if n < 3 {
        return false;
    }
    // Of these primes the divisors were tried in the proof.
    if matches!(
        n,
        998244353 | 2013265921 | 2130706433 | 2147483647 | 4294967291
    ) {
        return true;
    }
    // Below 256 the table holds every prime, and no division is needed.
    if n < 256 {
        return PRIMES.contains(&n);
    }
    // A prime of the table that divides n is not n itself.
    !has_divisor(n, 0, &PRIMES) && passes_odd_trial(n)
}

// Whether a number of the table with d added divides n.
fn has_divisor(n: u32, d: u32, table: &[u32]) -> bool
    requires { All (λ q. (0 < q) × (d + q < past_u32)) table.now }
    ensures { result ≡ list_any (λ q. n % (d + q) == 0) table.now }
{
    table.iter().any(|&q| n % (d + q) == 0)
}

// Whether n is prime, where no prime of the table divides it: the odd numbers above are left to try, up to the square root, which is
// taken once. 3 and 5 were tried, so their multiples need not be: of 30 numbers a turn tries eight.
fn passes_odd_trial(n: u32) -> bool
    requires { (3 ≤ n) × (list_any (λ q. n % (0 + q) == 0) primes ≡ false) }
    ensures { result ≡ odd_prime n }
{
    let root = square_root(u64::from(n)) as u32;
    for d in (240..root).step_by(30) {
        if has_divisor(n, d, &WHEEL) {
            return false;
        }
    }
    true
}
