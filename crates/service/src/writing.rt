// Writing the table of a list whose lines are worked: each line's cells through the part of the lent table that starts at its first cell.
ghost use Rattle.std.specs.Prelude.{◌≡◌};
ghost use Rattle.service.specs.Make.{WriteGiven};

use super::walk::Walk;
use table::line_cells::line_cells;
use text::MOST_NUMBERS;

// The cells of every line. The values of the lines so far are the first ones of the array: fixed memory, no heap.
pub fn write_lines(list: &[u8], p: u32, values: &[i64; 256], table: &mut [u32])
    requires { WriteGiven list.now p values.now table.old }
    ensures { (a : WriteGiven list.now p values.now table.old) → table.new ≡ a.cells }
{
    let mut numbers = [0; MOST_NUMBERS];
    let mut walk = Walk::over(list);
    while let Some(line) = walk.next(&mut numbers) {
        let first = usize::from(line.before.cells);
        line_cells(
            line.word,
            &numbers[..line.count],
            p,
            &values[..line.before.values],
            &values[line.before.values..line.after.values],
            &mut table[first..],
        );
    }
}
