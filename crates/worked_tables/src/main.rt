// Runs the worked tables P1 to P11 (clauses 12.1 to 12.11 of docs/FORMAT.md) through the compiled service, a line for each call. Every number
// after a call's first colon is what the call returned or left; the numbers before it are what it was given.
#![tactic(auto)]

mod call;
mod print;

use call::Row;
use std::io;
use std::io::Print;

fn row<'a>(name: &'a str, list: &'a [u8], inputs: &'a [i64]) -> Row<'a> {
    Row { name, list, inputs }
}

fn relu_rows(rt: &impl Print) -> io::Result<()> {
    let list = b"field\t31\nin\nrelu\t0\t2\t4\n";
    row("P1", list, &[-3]).run_make(rt)?;
    row("P1", list, &[-3]).run_show(rt, 1)?;
    row("P1", list, &[-3]).run_show(rt, 2)?;
    row("P2", list, &[5]).run_make(rt)?;
    row("P3", list, &[-8]).run_make(rt)?;
    row("P4", list, &[8]).run_make(rt)?;
    row("P4", list, &[-9]).run_make(rt)?;
    row("P5", list, &[-3]).run_check(rt, 1, 28)?;
    row("P6", list, &[5]).run_check(rt, 7, 1)
}

fn root_rows(rt: &impl Print) -> io::Result<()> {
    let list = b"field\t31\nin\nroot\t0\t2\t2\n";
    row("P7", list, &[3]).run_make(rt)?;
    row("P7", list, &[4]).run_make(rt)?;
    row("P7", b"field\t31\nin\nroot\t0\t2\t1\n", &[]).run_read(rt)
}

fn span_rows(rt: &impl Print) -> io::Result<()> {
    let list = b"field\t101\nin\nspan\t0\t5\t2\t-27\n";
    row("P8", list, &[-18]).run_make(rt)?;
    row("P8", list, &[-18]).run_show(rt, 1)?;
    row("P8", list, &[-27]).run_make(rt)?;
    row("P8", list, &[-3]).run_make(rt)?;
    row("P8", list, &[22]).run_make(rt)?;
    row("P9", b"field\t31\nin\nspan\t0\t2\t4\t0\n", &[]).run_read(rt)?;
    row("P9", b"field\t31\nin\nspan\t0\t2\t4\t1\n", &[]).run_read(rt)?;
    row("P9", b"field\t31\nin\nspan\t0\t31\t1\t-15\n", &[]).run_read(rt)?;
    row("P9", b"field\t31\nin\nspan\t0\t2\t5\t-15\n", &[]).run_read(rt)
}

// The line that makes the third value, max or which, is line 5.
fn pair_rows(rt: &impl Print) -> io::Result<()> {
    row("P10", b"field\t31\nin\nin\nmax\t0\t1\t2\t3\n", &[]).run_read(rt)?;
    let max = b"field\t31\nin\nin\nspan\t0\t2\t3\t0\nspan\t1\t2\t3\t0\nmax\t0\t1\t2\t3\n";
    row("P10", max, &[3, 6]).run_make(rt)?;
    row("P10", max, &[3, 6]).run_show(rt, 5)?;
    let which = b"field\t31\nin\nin\nspan\t0\t2\t3\t0\nspan\t1\t2\t3\t0\nwhich\t0\t1\t2\t4\n";
    row("P10", which, &[2, 2]).run_make(rt)?;
    row("P10", which, &[2, 2]).run_show(rt, 5)
}

fn main(rt: HostRuntime) -> io::Result<()> {
    relu_rows(&rt)?;
    root_rows(&rt)?;
    span_rows(&rt)?;
    pair_rows(&rt)?;
    row(
        "P11",
        b"field\t101\nin\nspan\t0\t2\t5\t0\nsum\t0\t2\t0\n",
        &[],
    )
    .run_read(&rt)
}
