// The values that a line names.
ghost use Rattle.std.specs.Prelude.{◌≡◌};
ghost use Rattle.number.specs.Bounded.{Bounded};
ghost use Rattle.groups.specs.Cells.{value_bound};
ghost use Rattle.groups.specs.Numbers.{named};
ghost use Rattle.table.specs.Value.{ValueAt};

use groups::numbers::value_named;
use number::Whole;

// A value of a list is small: nothing that a line computes of values leaves a machine word.
#[derive(Clone, Copy)]
pub struct Value {
    pub whole: Whole,
    pub ghost small: { Bounded value_bound whole.0 },
}

// The value that the number at a place names, with what the rules say of it. (`place_at` of `groups` finds its cell, which has no such struct: that it lies
// inside is of a cell and a table, and max and which have two cells in one table.)
pub fn value_at(numbers: &[i64], at: usize, values: &[i64]) -> Value
    requires { ValueAt numbers.now values.now at }
    ensures { result.whole.0 ≡ named numbers.now at values.now }
{
    Value {
        whole: value_named(numbers, at, values),
    }
}
