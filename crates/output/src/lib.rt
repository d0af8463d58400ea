// Writes text into a part of the output that is lent: bytes, numbers and fields. Each writer is given a part with room for its text,
// writes the text at its start and leaves what comes after it; the part that is left then goes to the next writer. The room stays a clause: it is of
// this text. How much was written is answered, as by std's `write`.
#![tactic(auto)]

ghost use Rattle.std.specs.Prelude.{◌≡◌, ◌≤◌, ◌<◌, ◌+◌, length};
ghost use Rattle.meaning.specs.Text.{decimal_of, number_text};
ghost use Rattle.output.specs.Written.{Written, PairStands, field_text};

use number::Whole;
use number::whole::{is_negative, magnitude};

// Writes bytes as they are.
pub fn write_bytes(part: &mut [u8], text: &[u8]) -> usize
    requires { length text.now ≤ length part.old }
    ensures { Written text.now part.old part.new result }
{
    part[..text.len()].copy_from_slice(text);
    text.len()
}

// ---- a number as it is written: its decimal digits, without a leading zero

// How many digits it has. One or two, as most numbers have, are told without the logarithm. `as`, as there is no `From` from a u32 to a usize.
#[tactic(auto, using(crate::proofs::Digits::digits_counted))]
pub fn decimal_length(n: u64) -> usize
    ensures { result ≡ length (decimal_of n) }
{
    if n < 10 {
        return 1;
    }
    if n < 100 {
        return 2;
    }
    n.checked_ilog10().unwrap_or(0) as usize + 1
}

// Writes two digits at a place.
#[inline(always)]
fn write_pair(part: &mut [u8], at: usize, n: u64)
    requires { (n < 100) × (at + 2 ≤ length part.old) }
    ensures { PairStands n at part.old part.new }
{
    part[at] = b'0' + (n / 10) as u8;
    part[at + 1] = b'0' + (n % 10) as u8;
}

// Writes a number of up to four digits, as nearly all have that the program writes: they take no loop, and their count is told on the way.
#[inline(always)]
#[tactic(auto, using(crate::proofs::Digits::short_written))]
fn write_short(part: &mut [u8], n: u64) -> usize
    requires { (n < 10000) × (length (decimal_of n) ≤ length part.old) }
    ensures { Written (decimal_of n) part.old part.new result }
{
    if n < 10 {
        part[0] = b'0' + n as u8;
        return 1;
    }
    if n < 100 {
        write_pair(part, 0, n);
        return 2;
    }
    if n < 1000 {
        write_pair(part, 1, n % 100);
        part[0] = b'0' + (n / 100) as u8;
        return 3;
    }
    write_pair(part, 2, n % 100);
    write_pair(part, 0, n / 100);
    4
}

// Writes the digits, of a long number the last ones first, two a turn: each division waits for the one before it. By hand, and not by the kit's `itoa`, whose
// table of digits would stand in the image, and which costs more where numbers are short (docs/SPEED.md).
pub fn write_decimal(part: &mut [u8], n: u64) -> usize
    requires { length (decimal_of n) ≤ length part.old }
    ensures { Written (decimal_of n) part.old part.new result }
{
    if n < 10_000 {
        return write_short(part, n);
    }
    let count = decimal_length(n);
    let mut rest = n;
    let mut at = count;
    while 100 <= rest {
        at -= 2;
        write_pair(part, at, rest % 100);
        rest /= 100;
    }
    write_short(part, rest);
    count
}

// Writes a number and the byte that ends its field.
pub fn write_field(part: &mut [u8], n: u64, end: u8) -> usize
    requires { length (field_text n end) ≤ length part.old }
    ensures { Written (field_text n end) part.old part.new result }
{
    let at = write_decimal(part, n);
    part[at] = end;
    at + 1
}

// ---- a signed number, with - before it if negative. The size of the lowest i64 is no i64, but a u64

// How many bytes it has.
#[tactic(auto, using(crate::proofs::Signed::signed_text, crate::proofs::Signed::plain_text, crate::proofs::Signed::size_most, crate::proofs::Digits::short_digits))]
pub fn number_length(z: Whole) -> usize
    ensures { result ≡ length (number_text z.0) }
{
    let size = magnitude(z);
    if is_negative(z) {
        return 1 + decimal_length(size + 1);
    }
    decimal_length(size)
}

// Writes the sign, and then the size.
#[tactic(auto, using(crate::proofs::Signed::signed_text, crate::proofs::Signed::plain_text, crate::proofs::Writing::room_for_parts))]
pub fn write_number(part: &mut [u8], z: Whole) -> usize
    requires { length (number_text z.0) ≤ length part.old }
    ensures { Written (number_text z.0) part.old part.new result }
{
    let size = magnitude(z);
    if is_negative(z) {
        let at = write_bytes(part, b"-");
        return at + write_decimal(&mut part[at..], size + 1);
    }
    write_decimal(part, size)
}
