// The number of a cell in a table, counted from 0. It is a type of its own, as neither a remainder nor a whole number is the place that it
// stands in.
ghost use Rattle.std.specs.Prelude.{◌≡◌, ◌+◌, ◌<◌};
ghost use Rattle.meaning.specs.Machine.{past_u64};

#[derive(Clone, Copy, PartialEq, Eq, PartialOrd, Ord)]
pub struct Cell(pub(crate) usize);

impl From<usize> for Cell {
    ghost from_gives = { λ n cell. cell.0 ≡ n };

    fn from(n: usize) -> Cell {
        Cell(n)
    }
}

impl From<Cell> for usize {
    ghost from_gives = { λ cell n. n ≡ cell.0 };

    fn from(cell: Cell) -> usize {
        cell.0
    }
}

impl Cell {
    // The cell that stands k cells after this one.
    pub fn after(self, k: usize) -> Cell
        requires { self.0 + k < past_u64 }
        ensures { result.0 ≡ self.0 + k }
    {
        Cell(self.0 + k)
    }
}
