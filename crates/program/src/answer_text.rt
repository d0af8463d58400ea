// The text of an answer: a refusal's line, or a table's lines. The room of a part stays a clause of each function that writes: it is of this text. How
// much was written is answered, as by std's `write`, and a place in the part goes on by it. `as`, as there is no `From` between usize and u64.
ghost use Rattle.std.specs.Prelude.{◌≡◌, ◌≤◌, length};
ghost use Rattle.meaning.specs.Refusal.{cell_limit};
ghost use Rattle.meaning.specs.Program.{refusal_text, cells_text, table_text};
ghost use Rattle.output.specs.Written.{Written};
ghost use Rattle.refusal.specs.Refusal.{refused_reply};
ghost use Rattle.program.specs.Texts.{longest_pair, pair_text, heading_text};

use output::{decimal_length, write_bytes, write_field};
use refusal::Refused;

const TAB: u8 = b'\t';

const LINE_END: u8 = b'\n';

// ---- a line of two numbers

// How long a line of two numbers is.
#[tactic(auto, using(crate::proofs::Lengths::line_lengths))]
fn pair_length(first: u64, second: u64) -> usize
    ensures yields { result ≡ length (pair_text first second) }
    ensures short { result ≤ longest_pair }
{
    decimal_length(first) + decimal_length(second) + 2
}

// Writes two numbers, parted by a tab, and the byte that ends their line.
fn write_pair(part: &mut [u8], first: u64, second: u64) -> usize
    requires { length (pair_text first second) ≤ length part.old }
    ensures { Written (pair_text first second) part.old part.new result }
{
    let at = write_field(part, first, TAB);
    at + write_field(&mut part[at..], second, LINE_END)
}

// ---- a refusal

#[tactic(auto, using(crate::proofs::Lengths::refusal_lengths))]
pub fn refusal_length(refused: Refused) -> usize
    ensures { result ≡ length (refusal_text (refused_reply refused)) }
{
    let number = u32::from(refused.refusal);
    8 + pair_length(u64::from(number), refused.place as u64)
}

pub fn write_refusal(part: &mut [u8], refused: Refused) -> usize
    requires { length (refusal_text (refused_reply refused)) ≤ length part.old }
    ensures { Written (refusal_text (refused_reply refused)) part.old part.new result }
{
    let number = u32::from(refused.refusal);
    let at = write_bytes(part, b"refused\t");
    at + write_pair(&mut part[at..], u64::from(number), refused.place as u64)
}

// ---- a table

#[tactic(auto, using(crate::proofs::Lengths::line_lengths))]
pub fn table_length(table: &[u32]) -> usize
    requires { length table.now ≤ cell_limit }
    ensures { result ≡ length (table_text table.now) }
{
    let mut total = 7 + decimal_length(table.len() as u64);
    for (i, &cell) in table.iter().enumerate() {
        total += pair_length(i as u64, u64::from(cell));
    }
    total
}

pub fn write_table(part: &mut [u8], table: &[u32]) -> usize
    requires { length (table_text table.now) ≤ length part.old }
    ensures { Written (table_text table.now) part.old part.new result }
{
    let at = write_heading(part, table.len() as u64);
    at + write_cells(&mut part[at..], table)
}

// The first line: the count of cells.
fn write_heading(part: &mut [u8], count: u64) -> usize
    requires { length (heading_text count) ≤ length part.old }
    ensures { Written (heading_text count) part.old part.new result }
{
    let at = write_bytes(part, b"table\t");
    at + write_field(&mut part[at..], count, LINE_END)
}

// The lines of the cells.
fn write_cells(part: &mut [u8], table: &[u32]) -> usize
    requires { length (cells_text 0 table.now) ≤ length part.old }
    ensures { Written (cells_text 0 table.now) part.old part.new result }
{
    let mut at: usize = 0;
    for (i, &cell) in table.iter().enumerate() {
        at += write_pair(&mut part[at..], i as u64, u64::from(cell));
    }
    at
}
