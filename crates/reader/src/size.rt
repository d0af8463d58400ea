// How many values, inputs, cells and rows a line has. It goes by the line's word and digit count alone, so that reading counts them
// with the same function as the walks over a list that was read.
ghost use Rattle.std.specs.Prelude.{◌≡◌, true, ℕ, ◌≤◌, take};
ghost use Rattle.meaning.specs.Word.{kind_of};
ghost use Rattle.meaning.specs.Known.{Known};
ghost use Rattle.meaning.specs.Kept.{Keeps};
ghost use Rattle.text.specs.Word.{word_of};
ghost use Rattle.rules.specs.Yield.{line_with};
ghost use Rattle.reader.specs.Size.{Adds, FewCounts, DigitCount, DigitSize};

use super::counts::Counts;
use number::whole::{Whole, natural, whole_at};
use text::Word;

// A digit count that a line may have, and 31 in the place of a larger one.
fn digit_count(k: Whole) -> usize
    ensures { DigitCount k.0 result }
{
    natural(k).min(31)
}

// The counts of a line whose digit count stands at a place, and is 0 where its numbers end before: it makes so many values, has no input, and for
// each digit it has `each` cells and as many rows, with so many cells and rows more.
fn digit_size(
    numbers: &[i64],
    at: usize,
    values: usize,
    each: usize,
    cells: usize,
    rows: usize,
) -> Counts
    requires { (each ≤ 4) × (cells ≤ 3) × (rows ≤ 5) }
    ensures { DigitSize numbers.now at values each cells rows result }
{
    // 0, and no panic or None: `line_size` may be called of any numbers; that they belong to the word is a premise of its promise alone.
    let count = if at < numbers.len() {
        digit_count(whole_at(numbers, at))
    } else {
        0
    };
    let digits = each * count;
    Counts::of(values, 0, digits + cells, digits + rows)
}

// How much a line adds to the counts of a list: its values, inputs, cells and rows. The walks over a list that was read go by it.
// The numbers are the line's, or begin with them: an array that lines are read into may be given whole.
// It is always inline, as its counts would pass through memory.
#[inline(always)]
#[tactic(auto, using(crate::proofs::Sizes::field_sizes, crate::proofs::Sizes::input_sizes, crate::proofs::Sizes::sum_sizes))]
pub fn line_size(word: Word, numbers: &[i64]) -> Counts
    ensures yields { (n : ℕ) (s : Known) → (kind_of (word_of word)).is_counted numbers.now ≡ true
        → Keeps n s (line_with (word_of word) numbers.now) → Adds s (line_with (word_of word) numbers.now) result }
    ensures first { (n count : ℕ) (s : Known) → (kind_of (word_of word)).is_counted (take count numbers.now) ≡ true
        → Keeps n s (line_with (word_of word) (take count numbers.now)) → Adds s (line_with (word_of word) (take count numbers.now)) result }
    ensures small { FewCounts result }
{
    match word {
        Word::Field => Counts::default(),
        Word::In => Counts::of(1, 1, 1, 0),
        Word::Span => digit_size(numbers, 2, 0, 1, 0, 1),
        Word::Sum => Counts::of(1, 0, 1, 1),
        Word::Relu => digit_size(numbers, 2, 1, 1, 3, 5),
        Word::Which => digit_size(numbers, 3, 1, 1, 3, 5),
        Word::Max => digit_size(numbers, 3, 1, 2, 1, 3),
        Word::Root => digit_size(numbers, 2, 1, 4, 2, 5),
    }
}
