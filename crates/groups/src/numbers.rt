// The numbers of a line as machine words: the name of a value, a base, a digit count. The rules of reading say that these are not negative,
// and how great they are.
ghost use Rattle.std.specs.Prelude.{◌≡◌, ◌≤◌, ◌<◌, pos, length, get_or, ◌≤ℤ◌};
ghost use Rattle.meaning.specs.Text.{largest};
ghost use Rattle.groups.specs.Numbers.{size, named, placed, NameAt, DigitsFrom, DigitsAre};

use super::digits::Digits;
use number::whole::{size_of, whole_at};
use number::{Cell, Whole};

// The number at a place where a name or a digit count stands.
pub fn size_at(numbers: &[i64], at: usize) -> usize
    requires { (at < length numbers.now) × (pos 0 ≤ℤ get_or numbers.now at (pos 0)) }
    ensures { result ≡ size numbers.now at }
{
    size_of(whole_at(numbers, at))
}

// The base at a place and the digit count after it. A number's size has 31 bits (FORMAT 2.6), so that the cast keeps the base.
pub fn digits_from(numbers: &[i64], at: usize) -> Digits
    requires { DigitsFrom numbers.now at }
    ensures { DigitsAre numbers.now at result.base result.count }
{
    Digits {
        base: size_at(numbers, at) as u32,
        count: size_at(numbers, at + 1),
    }
}

// The value that the number at a place names.
pub fn value_named(numbers: &[i64], at: usize, values: &[i64]) -> Whole
    requires { NameAt (length values.now) numbers.now at }
    ensures { result.0 ≡ named numbers.now at values.now }
{
    whole_at(values, size_at(numbers, at))
}

// And the cell of that value. It is kept in 16 bits, which hold the number of every cell. (Not one function for values and cells: an i64 becomes a whole
// number by `whole_at` alone, a u16 the number of a cell by `From`.)
pub fn place_at(numbers: &[i64], at: usize, places: &[u16]) -> Cell
    requires { NameAt (length places.now) numbers.now at }
    ensures { result.0 ≡ placed numbers.now at places.now }
{
    let name = size_at(numbers, at);
    Cell::from(usize::from(places[name]))
}
