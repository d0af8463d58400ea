// Checking a table, whoever wrote it: its length, its cells, then its rows in order. Nothing is written.
ghost use Rattle.std.specs.Prelude.{◌≡◌, nat_le, position};
ghost use Rattle.meaning.specs.Refusal.{all};
ghost use Rattle.meaning.specs.Reply.{is_cell, first_fail, refusal_at, checked};
ghost use Rattle.service.specs.Reply.{reply_meaning, Checks};
ghost use Rattle.service.specs.Walk.{ListRead, CountsGiven};
ghost use Rattle.service.specs.Check.{cells_meaning, TableGiven, rows_reply};

use super::walk::{Walk, take_place};
use groups::cells::Table;
use number::Cell;
use reader::{Surveyed, survey};
use refusal::{Refusal, Refused};
use table::line_rows::line_rows;
use text::MOST_NUMBERS;

// The public call: for every list and table the reply of the definitions. FORMAT 9.6
pub fn check(list: &[u8], table: &[u32]) -> Result<(), Refused>
    ensures { Checks list.now table.now result }
{
    let found = survey(list)?;
    check_table(list, table, found)
}

// A table for a list that is read, of which this was found. FORMAT 10.13, 13.6
fn check_table(list: &[u8], table: &[u32], found: Surveyed) -> Result<(), Refused>
    requires { CountsGiven list.now found.p found.counts }
    ensures { (l : ListRead list.now) → reply_meaning result ≡ checked l.last l.lines table.now }
{
    if table.len() != usize::from(found.counts.cells) {
        return Err(Refusal::TableLength.at(0));
    }
    match first_large(table, found.p) {
        Some(cell) => Err(Refusal::CellTooGreat.at(usize::from(cell))),
        None => check_rows(list, table, found.p),
    }
}

// Whether each cell is below p (FORMAT 8.8). No cell ends the fold, so that it is compiled to tests of several cells at once.
fn all_below(table: &[u32], p: u32) -> bool
    ensures { result ≡ all (is_cell p) table.now }
{
    table.iter().fold(true, |below, &cell| below & (cell < p))
}

// The place of the first cell of p or more.
fn place_of_large(table: &[u32], p: u32) -> Option<usize>
    ensures { result ≡ position (λ cell. nat_le p cell) table.now }
{
    table.iter().position(|&cell| p <= cell)
}

// The first cell of p or more. It is looked for in a table that is refused, and in no other. FORMAT 10.14
#[tactic(auto, using(crate::proofs::Scan::all_none, crate::proofs::Checked::cells_found), unfolding(crate::specs::Check::cells_meaning, meaning::specs::Reply::refusal_at))]
fn first_large(table: &[u32], p: u32) -> Option<Cell>
    ensures { cells_meaning result ≡ refusal_at 14 (first_fail (is_cell p) 0 table.now) }
{
    if all_below(table, p) {
        return None;
    }
    place_of_large(table, p).map(Cell::from)
}

// The rows, counted over the whole list. FORMAT 10.15
fn check_rows(list: &[u8], table: &[u32], p: u32) -> Result<(), Refused>
    requires { TableGiven list.now table.now p }
    ensures { (l : ListRead list.now) → reply_meaning result ≡ rows_reply l.last l.lines table.now }
{
    let mut numbers = [0; MOST_NUMBERS];
    // The places so far are the first ones of the array: fixed memory, no heap.
    let mut places: [u16; 256] = [0; 256];
    let remainders = Table { cells: table, p };
    let mut walk = Walk::over(list);
    while let Some(line) = walk.next(&mut numbers) {
        line_rows(
            line.word,
            &numbers[..line.count],
            remainders,
            line.before.cells,
            &places[..line.before.values],
        )
        .map_err(|row| Refusal::RowFails.at(line.before.rows + row))?;
        take_place(&mut places, line.before, line.after);
    }
    Ok(())
}
