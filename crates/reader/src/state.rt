// What is known before a line in reading, and what the line does to it: its numbers and what is known go to the rules of its kind, and the ends
// that these answer with are taken in. The walks over a list that was read test no rule again, and do not come here.
ghost use Rattle.std.specs.Prelude.{◌≡◌, IfOk, get_or, pos, nat_abs, ◌≤ℤ◌};
ghost use Rattle.meaning.specs.Known.{Known as Meant};
ghost use Rattle.text.specs.Word.{word_of};
ghost use Rattle.rules.specs.Ready.{Represented, BoundedEnds, greatest};
ghost use Rattle.rules.specs.Yield.{made_meaning, line_with};
ghost use Rattle.text.specs.declared.Word.TheVariants.{Span};
ghost use Rattle.reader.specs.Line.{NotSpan, line_yield};

use super::counts::Counts;
use super::line::Parsed;
use super::size::line_size;
use number::whole::{Whole, natural, whole_at};
use refusal::Refusal;
use rules::{
    Ends, Known, read_input, read_max, read_relu, read_root, read_span, read_sum, read_which,
};
use text::Word;

// The ends of the value that a line makes, or narrows, or the first rule that it breaks. A match over the line's kind: an input takes no
// numbers, each other kind asks its own count of them, which a table of functions could not, and the compiler calls each one directly.
#[tactic(auto, unfolding(meaning::specs::Word::kind_of, text::specs::Word::word_of, crate::specs::Line::line_yield, crate::specs::Line::yield_by), using(crate::proofs::Steps::by_word, crate::proofs::Steps::field_later, crate::proofs::Steps::with_count))]
fn read_ends(line: Parsed, known: Known) -> Result<Ends, Refusal>
    ensures yields { (s : Meant) → Represented s known.entry.p known.entry.cells known.entry.ends.now
        → made_meaning result ≡ line_yield s (line_with (word_of line.entry.word) line.entry.numbers.now) }
    ensures sized { IfOk result (BoundedEnds greatest) }
{
    match line.word {
        Word::Field => Err(Refusal::FieldLineMisplaced),
        Word::In => read_input(known),
        Word::Span => read_span(known, line.numbers),
        Word::Sum => read_sum(known, line.numbers),
        Word::Relu => read_relu(known, line.numbers),
        Word::Which => read_which(known, line.numbers),
        Word::Max => read_max(known, line.numbers),
        Word::Root => read_root(known, line.numbers),
    }
}

// The number of the value that a line makes, which comes after the others, or of the value that a span line names.
#[tactic(auto, unfolding(meaning::specs::Word::kind_of, text::specs::Word::word_of), using(crate::proofs::Steps::with_count, crate::proofs::Steps::no_other))]
fn value_at(line: Parsed, values: usize) -> usize
    ensures span { line.entry.word ≡ Span → pos 0 ≤ℤ get_or line.entry.numbers.now 0 (pos 0) → result ≡ nat_abs (get_or line.entry.numbers.now 0 (pos 0)) }
    ensures other { NotSpan (word_of line.entry.word) → result ≡ values }
{
    match line.word {
        Word::Span => natural(whole_at(line.numbers, 0)),
        _ => values,
    }
}

// p, the counts of the lines so far, and the ends of their values, which are the first ones of the array. An array and a count: no heap, a required
// form of the project. That p is an odd prime and that all keeps within the limits (`WithinLimits`) is no ghost field: `writer` holds a state before
// it knows p, and fills it line by line.
#[derive(Clone, Copy)]
pub struct State {
    pub p: u32,
    pub counts: Counts,
    pub ends: [Ends; 256],
}

impl State {
    ghost use Rattle.std.specs.Prelude.{◌≡◌, ◌≤◌, ℕ, List, length, IfOk};
    ghost use Rattle.meaning.specs.Known.{Known as Meant};
    ghost use Rattle.meaning.specs.Refusal.{value_limit};
    ghost use Rattle.text.specs.Word.{word_of};
    ghost use Rattle.rules.specs.Ready.{greatest};
    ghost use Rattle.rules.specs.Yield.{line_with};
    ghost use Rattle.reader.specs.Size.{counted};
    ghost use Rattle.reader.specs.State.{state_of, WithinLimits};
    ghost use Rattle.reader.specs.Step.{placed_at, step_meaning, step_of, Stepped};

    // Over p nothing else is known.
    pub fn over(p: u32) -> State
        ensures prime { result.p ≡ p }
        ensures counts { result.counts ≡ counted 0 0 0 0 }
        ensures long { length result.ends ≡ value_limit }
    {
        let zero = Ends::from(Whole::from(0u32));
        State {
            p,
            counts: Counts::default(),
            ends: [zero; 256],
        }
    }

    // What a line does to what is known.
    pub fn step(&mut self, line: Parsed) -> Result<(), Refusal>
        requires { WithinLimits self.old }
        ensures yields { (s : Meant) (places : List ℕ) → length places ≡ value_limit → s ≡ state_of self.old places
            → step_meaning self.new result (placed_at self.old.counts places) ≡ step_of 1 s (line_with (word_of line.entry.word) line.entry.numbers.now) }
        ensures held { Stepped result self.old self.new }
    {
        let known = Known {
            p: self.p,
            cells: usize::from(self.counts.cells),
            ends: &self.ends[..self.counts.values],
        };
        let ends = read_ends(line, known)?;
        let at = value_at(line, self.counts.values);
        self.ends[at] = ends;
        self.counts = self.counts + line_size(line.word, line.numbers);
        Ok(())
    }
}
