// The floor of the square root of any u64. A power of 2 above the root is found first, so that small numbers take few turns; then by
// halving: the root lies from low on and below high. The library's `isqrt` always takes 32 turns: with it making a table of roots of small
// numbers takes three times as long, and longer than the reference does (docs/SPEED.md).
ghost use Rattle.std.specs.Prelude.{◌≡◌, ◌*◌, ◌≤◌, ◌<◌};
ghost use Rattle.meaning.specs.Machine.{past_u32};
ghost use Rattle.algebra.specs.Root.{square_root};

// The first power of 2 whose square is above n, and 2 where n is 0. With 2^k the last power of 2 that is not above n, n is below 2^(k+1), and
// k+1 is at most twice the exponent k/2+1.
#[tactic(auto, using(crate::proofs::RootBound::bound_above))]
fn above_root(n: u64) -> u64
    ensures { (1 ≤ result) × (result ≤ past_u32) × (n < result * result) }
{
    1 << (n.checked_ilog2().unwrap_or(0) / 2 + 1)
}

#[tactic(auto, using(crate::proofs::Word::root_between))]
pub fn square_root(n: u64) -> u64
    ensures { result ≡ square_root n }
{
    let mut low: u64 = 0;
    let mut high = above_root(n);
    // Either end moves, and how many turns there are is not known before: no iterator runs so.
    while 1 < high - low {
        let middle = low + (high - low) / 2;
        if middle * middle <= n {
            low = middle;
        } else {
            high = middle;
        }
    }
    low
}
