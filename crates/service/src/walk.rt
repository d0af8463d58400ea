// Walking a list that was read once more: line after line, with the counts before and after each, and the cells of the values that the lines make.
ghost use Rattle.std.specs.Prelude.{◌≡◌, true, ℕ, ◌+◌, ◌≤◌};
ghost use Rattle.meaning.specs.Word.{kind_of};
ghost use Rattle.meaning.specs.Known.{Known};
ghost use Rattle.meaning.specs.Meaning.{after};
ghost use Rattle.meaning.specs.Kept.{Keeps};
ghost use Rattle.text.specs.Word.{word_of};
ghost use Rattle.rules.specs.Yield.{line_with};
ghost use Rattle.reader.specs.Size.{Few};
ghost use Rattle.service.specs.Walk.{CountsOf, BeforeLine, with_place};
ghost use Rattle.meaning.specs.Refusal.{value_limit};

use lines::line_of;
use reader::{Counts, line_size};
use text::{MOST_NUMBERS, Text, Word};

// A walk over a list that was read: where its next line starts, the number of that line, and the counts of the lines before it.
// It is no `Iterator`: `Iterator::next` has no place for an array that is lent, and its item cannot borrow from the walk, so that a `for` would ask
// for a copy of 33 numbers a line, which is no plainer.
#[derive(Drop)]
pub struct Walk<'a> {
    pub text: Text<'a>,
    pub at: usize,
    pub number: usize,
    pub counts: Counts,
    pub ghost stands: { ∥ BeforeLine text.bytes.now counts at number ∥₁ },
}

// A line of the list: its number, its word, how many numbers it has, and the counts before it and after it. The numbers are in the lent array, and
// their count is answered, as std's `read` does (fixed memory).
#[derive(Clone, Copy)]
pub struct Taken {
    pub number: usize,
    pub word: Word,
    pub count: usize,
    pub before: Counts,
    pub after: Counts,
}

impl<'a> Walk<'a> {
    ghost use Rattle.service.specs.Walk.{ListRead};
    ghost use Rattle.service.specs.Taken.{StartsAt, NextYield};

    // Before the first line.
    #[tactic(auto, using(crate::proofs::Standing::stands_first))]
    pub fn over(list: &'a [u8]) -> Walk<'a>
        requires { ListRead list.now }
        ensures { StartsAt list.now result }
    {
        // A list that was read is ended.
        let Some(text) = Text::of(list) else {
            unreachable!()
        };
        Walk {
            text,
            at: 0,
            number: 0,
            counts: Counts::default(),
        }
    }

    // The next line, whose numbers are then the first in `numbers`, or none at the list's end. It is always inline: as a call, which passes the counts
    // through memory, it costs `make` of short lines a seventh of its time (docs/SPEED.md).
    #[inline(always)]
    pub fn next(&mut self, numbers: &mut [i64; MOST_NUMBERS]) -> Option<Taken>
        ensures { NextYield self.old self.new numbers.new result }
    {
        if self.text.bytes.len() <= self.at {
            return None;
        }
        // The list was read, so that each of its lines is one.
        let Some(line) = line_of(self.text, self.at, numbers) else {
            unreachable!()
        };
        let own = &numbers[..line.count];
        let taken = Taken {
            number: self.number,
            word: line.word,
            count: line.count,
            before: self.counts,
            after: counts_after(self.counts, line.word, own),
        };
        self.at = line.next;
        self.number += 1;
        self.counts = taken.after;
        Some(taken)
    }
}

// The counts after a line.
fn counts_after(counts: Counts, word: Word, numbers: &[i64]) -> Counts
    requires { Few counts }
    ensures yields { (n : ℕ) (s : Known) → (kind_of (word_of word)).is_counted numbers.now ≡ true
        → Keeps n s (line_with (word_of word) numbers.now) → CountsOf s counts
        → CountsOf (after s (line_with (word_of word) numbers.now)) result }
    ensures more { (counts.values ≤ result.values) × (result.values ≤ counts.values + 1) }
{
    counts + line_size(word, numbers)
}

// Takes in the cell of the value that a line makes, where it makes one: it is the first cell of the line. The places so far are the
// first ones of the array: fixed memory, no heap.
#[tactic(auto, using(crate::proofs::Places::place_taken, crate::proofs::Places::place_not_taken))]
pub fn take_place(places: &mut [u16; 256], counts: Counts, next: Counts)
    requires { Few counts × (next.values ≤ value_limit) }
    ensures { places.new ≡ with_place places.old counts next }
{
    let at = counts.values;
    if at < next.values {
        let first = usize::from(counts.cells);
        places[at] = first as u16;
    }
}
