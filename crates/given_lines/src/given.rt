// Lines as they are given: a row of codes, one for each line, a row of counts, and a row with the numbers of all lines, one line's after another's.
// Measuring, reading and writing all take the lines out of the three rows here, one after another.
ghost use Rattle.std.specs.Prelude.{◌≡◌, get_or, drop};
ghost use Rattle.meaning.specs.Write.{line_given};
ghost use Rattle.given_lines.specs.Given.{line_meaning};

use text::Word;

// The three rows, as the C interface lends them. FORMAT 9.23, 9.25
#[derive(Clone, Copy)]
pub struct Given<'a> {
    pub words: &'a [u8],
    pub counts: &'a [usize],
    pub numbers: &'a [i64],
}

// A line: its word, if its code is one's, and its numbers. FORMAT 9.24
#[derive(Clone, Copy)]
pub struct GivenLine<'a> {
    pub word: Option<Word>,
    pub numbers: &'a [i64],
}

// The lines that are left of three rows.
#[derive(Clone, Copy)]
pub struct Lines<'a> {
    left: Given<'a>,
}

impl<'a> Given<'a> {
    ghost use Rattle.given_lines.specs.Given.{lines_of, lines_left};

    pub fn lines(self) -> Lines<'a>
        ensures { lines_left result ≡ lines_of self.entry }
    {
        Lines { left: self }
    }
}

impl<'a> Iterator for Lines<'a> {
    ghost use Rattle.std.specs.Iterator.{item_count};
    ghost use Rattle.given_lines.specs.Given.{lines_left, GivesLine};

    type Item = GivenLine<'a>;

    ghost next_gives = { GivesLine };

    ghost remaining = { item_count lines_left };

    #[inline(always)]
    #[tactic(auto, unfolding(meaning::specs::Write::lines_given))]
    fn next(&mut self) -> Option<GivenLine<'a>> {
        let (code, words) = self.left.words.split_first()?;
        let (count, counts) = split_count(self.left.counts);
        let (line, numbers) = split_line(*code, count, self.left.numbers);
        self.left = Given {
            words,
            counts,
            numbers,
        };
        Some(line)
    }
}

// The first count, 0 where no count is left, and those after it. FORMAT 9.25
#[inline(always)]
fn split_count(counts: &[usize]) -> (usize, &[usize])
    ensures count { result.0 ≡ get_or counts.now 0 0 }
    ensures rest { result.1.now ≡ drop 1 counts.now }
{
    match counts.split_first() {
        Some((count, rest)) => (*count, rest),
        None => (0, counts),
    }
}

// A line with this code and so many of the numbers, and those after them. Where fewer are left, it is a line without word and numbers, and none are left
// after it. FORMAT 9.23, 9.25
#[inline(always)]
#[tactic(auto, unfolding(meaning::specs::Write::line_given))]
fn split_line(code: u8, count: usize, numbers: &[i64]) -> (GivenLine<'_>, &[i64])
    ensures line { line_meaning result.0 ≡ line_given code count numbers.now }
    ensures rest { result.1.now ≡ drop count numbers.now }
{
    match numbers.split_at_checked(count) {
        Some((own, rest)) => (
            GivenLine {
                word: Word::try_from(code).ok(),
                numbers: own,
            },
            rest,
        ),
        None => (
            GivenLine {
                word: None,
                numbers: &[],
            },
            &[],
        ),
    }
}
