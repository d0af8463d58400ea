// A table whose cells are remainders modulo p, and such a table with the digits of a line that is checked in it.
ghost use Rattle.std.specs.Prelude.{ℕ, ◌^◌, ◌≤◌, ◌<◌, length, get_or};
ghost use Rattle.meaning.specs.Row.{cell};
ghost use Rattle.groups.specs.Rows.{Leaves};

use super::digits::Digits;
use number::residue::residue_at;
use number::{Cell, Residue};

#[derive(Clone, Copy)]
pub struct Table<'a> {
    pub cells: &'a [u32],
    pub p: u32,
    pub ghost remainders: { (i : ℕ) → i < length cells.now → get_or cells.now i 0 < p },
}

// A table with the digits of a line that is checked in it: c = b^k is at most p, so that what k digits are worth is its own remainder. (Where cells are
// written there is no such struct: each function is lent another part.)
#[derive(Clone, Copy)]
pub struct GroupTable<'a> {
    pub table: Table<'a>,
    pub digits: Digits,
    pub ghost power: { digits.base ^ digits.count ≤ table.p },
}

impl Table<'_> {
    // What stands in a cell.
    pub fn at(self, place: Cell) -> Residue
        requires { place.0 < length self.cells.now }
        ensures { Leaves self.entry.p self.entry.cells.now result.0 (cell place.0) }
    {
        residue_at(self.cells, place)
    }
}
