// How many values, inputs, cells and rows lines have.
ghost use Rattle.std.specs.Prelude.{◌≡◌};
ghost use Rattle.reader.specs.Size.{added, counted, Few, FewCounts};

use number::Cell;
use std::ops::Add;

// The counts of the first lines of a list, or of one line alone.
#[derive(Clone, Copy)]
pub struct Counts {
    pub values: usize,
    pub inputs: usize,
    // The number of the first cell after them, which is how many they have.
    pub cells: Cell,
    pub rows: usize,
}

impl Counts {
    // So many of each.
    pub fn of(values: usize, inputs: usize, cells: usize, rows: usize) -> Counts
        ensures { result ≡ counted values inputs cells rows }
    {
        Counts {
            values,
            inputs,
            cells: Cell::from(cells),
            rows,
        }
    }
}

// The counts of no lines. By hand: a derived one asks a default of `Cell` too, where the number of a cell has none of its own.
impl Default for Counts {
    ghost is_default = { λ counts. counts ≡ counted 0 0 0 0 };

    fn default() -> Counts {
        Counts::of(0, 0, 0, 0)
    }
}

// The counts of some lines, and what one more line adds.
impl Add for Counts {
    type Output = Counts;

    ghost can_add = { λ counts size. Few counts × FewCounts size };

    ghost add_gives = { λ counts size together. together ≡ added counts size };

    fn add(self, size: Counts) -> Counts {
        Counts {
            values: self.values + size.values,
            inputs: self.inputs + size.inputs,
            cells: self.cells.after(usize::from(size.cells)),
            rows: self.rows + size.rows,
        }
    }
}
