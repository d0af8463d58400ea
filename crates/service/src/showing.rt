// Showing a line: the part of the lent table that holds its cells.
ghost use Rattle.std.specs.Prelude.{◌≡◌};
ghost use Rattle.meaning.specs.Reply.{shown, shown_from};
ghost use Rattle.service.specs.Walk.{ListRead};
ghost use Rattle.service.specs.Show.{cell_place, IsStretch};

use super::walk::Walk;
use number::Cell;
use reader::survey;
use std::ops::Range;
use text::MOST_NUMBERS;

// The public call: a part of the caller's slice, empty for the field line, for a line that is not there, for a refused list and for a
// wrong table length.
pub fn show<'a>(list: &[u8], table: &'a [u32], line: usize) -> &'a [u32]
    ensures cells { result.now ≡ shown list.now table.now line }
    ensures place { result.ref_ptr ≡ cell_place table.entry.ref_ptr (shown_from list.now table.now line) }
{
    let Ok(found) = survey(list) else {
        return &table[0..0];
    };
    if table.len() != usize::from(found.counts.cells) {
        return &table[0..0];
    }
    let cells = stretch_of(list, line);
    let from = usize::from(cells.start);
    let to = usize::from(cells.end);
    &table[from..to]
}

// The cells of a line in a table of the list's length.
fn stretch_of(list: &[u8], line: usize) -> Range<Cell>
    requires { ListRead list.now }
    ensures { (l : ListRead list.now) → IsStretch list.now line l result }
{
    let mut numbers = [0; MOST_NUMBERS];
    let mut walk = Walk::over(list);
    while let Some(taken) = walk.next(&mut numbers) {
        if taken.number == line {
            return taken.before.cells..taken.after.cells;
        }
    }
    let none = Cell::from(0);
    none..none
}
