// Line 0 in reading: a field line over an odd prime, or its refusal.
ghost use Rattle.std.specs.Prelude.{◌≡◌, ◌≤◌, IfOk};
ghost use Rattle.meaning.specs.Known.{fresh};
ghost use Rattle.text.specs.Word.{word_of};
ghost use Rattle.rules.specs.Ready.{greatest};
ghost use Rattle.rules.specs.Yield.{line_with};
ghost use Rattle.reader.specs.Step.{step_of};
ghost use Rattle.reader.specs.Read.{first_meaning};

use super::line::Parsed;
use number::whole::{is_negative, size_of, whole_at};
use primes::is_odd_prime;
use refusal::Refusal;
use text::Word;

// p of line 0.
// FORMAT 10.4, 10.5
pub fn first_parsed(line: Parsed) -> Result<u32, Refusal>
    ensures yields { first_meaning result ≡ step_of 0 fresh (line_with (word_of line.entry.word) line.entry.numbers.now) }
    ensures small { IfOk result (λ p. p ≤ greatest) }
{
    let Word::Field = line.word else {
        return Err(Refusal::FieldLineMisplaced);
    };
    // A test and a conversion, and no `TryFrom` of `number`: this one place would use it.
    let n = whole_at(line.numbers, 0);
    if is_negative(n) {
        return Err(Refusal::NoOddPrime);
    }
    let p = size_of(n) as u32;
    if !is_odd_prime(p) {
        return Err(Refusal::NoOddPrime);
    }
    Ok(p)
}
