// What a check of rows answers: Ok, or the number of the first row that fails, counted from 0 in its line. The answer for a list of rows is put
// together from those for its parts, by `Result::and` where one part stands before another.
// The answers of later rows are taken before they are needed: in a true table, the one that matters, every row is tested anyway.
ghost use Rattle.std.specs.Prelude.{◌≡◌, cond};
ghost use Rattle.std.proofs.Math.Option.{some};
ghost use Rattle.meaning.specs.Reply.{reply};
ghost use Rattle.groups.specs.Rows.{rows_meaning};

// One row, of this number, and then others.
pub fn row_before(holds: bool, row: usize, later: Result<(), usize>) -> Result<(), usize>
    ensures { rows_meaning result ≡ cond holds (rows_meaning later) (some (reply 15 row)) }
{
    if holds { later } else { Err(row) }
}
