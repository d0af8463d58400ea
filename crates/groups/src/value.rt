// The cell of the value that a line makes.
ghost use Rattle.std.specs.Prelude.{◌≡◌, ◌∷◌, ◌<◌, length, drop};
ghost use Rattle.meaning.specs.Number.{remainder};

use number::residue::{remainder_of, set_residue};
use number::{Cell, Whole};

// The cell of a whole number x: its remainder modulo p.
pub fn value_cell(out: &mut [u32], p: u32, x: Whole)
    requires { (0 < p) × (0 < length out.old) }
    ensures { out.new ≡ remainder p x.0 ∷ drop 1 out.old }
{
    set_residue(out, Cell::from(0), remainder_of(x, p));
}
