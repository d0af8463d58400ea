// The public calls for programs in other languages, by the C ABI: numbers pass as themselves, a slice as a pointer and a length, and a place that
// is lent for one number as a pointer. No function asks anything of its caller but that what it lends is there and that what is written overlaps
// nothing else that is lent. Each returns the number of its reply, since a `Result` can't cross to C, but for showing and answering, which return
// a count. FORMAT 9.1, 9.2, 9.18, 9.21, 9.22
#![tactic(auto)]

ghost use Rattle.std.specs.Prelude.{◌≡◌, ◌+◌, ◌≤◌, length, get_or, take, drop};
ghost use Rattle.std.specs.List.{range_with_len};
ghost use Rattle.meaning.specs.Refusal.{cell_limit};
ghost use Rattle.meaning.specs.Reply.{reply, making, writing, read_reply, check_reply, make_reply, write_reply, shown, shown_from};
ghost use Rattle.meaning.specs.Write.{lines_given};
ghost use Rattle.meaning.specs.Program.{respond as response_to};
ghost use Rattle.meaning.specs.Desk.{counted, called, desk_call};
ghost use Rattle.refusal.specs.Refusal.{answered};
ghost use Rattle.program.specs.Answered.{Answered};
ghost use Rattle.exports.specs.Read.{numbers, numbers_after};

use desk::Desk;
use program::respond;
use refusal::Refused;
use service::{check, make, read, show};
use writer::write;

// A list of more cells is refused. FORMAT 4.7
const MOST_CELLS: usize = 4096;

// Reads a list: 0 and its p and counts, or the number and place of its refusal. The place is written, and the other four where the number is 0.
// FORMAT 9.4, 9.19
#[unsafe(no_mangle)]
pub extern "C" fn digit_table_read(
    list: &[u8],
    place: &mut usize,
    p: &mut u32,
    values: &mut usize,
    cells: &mut usize,
    rows: &mut usize,
) -> u32
    ensures { numbers result place.new p.new values.new cells.new rows.new
        ≡ numbers_after p.old values.old cells.old rows.old (read_reply list.now) }
{
    match read(list) {
        Ok(summary) => {
            *place = 0;
            *p = summary.p;
            *values = summary.values;
            *cells = summary.cells;
            *rows = summary.rows;
            0
        }
        Err(refused) => tell(Err(refused), place),
    }
}

// Checks a table. The place is written. FORMAT 9.6, 9.18
#[unsafe(no_mangle)]
pub extern "C" fn digit_table_check(list: &[u8], table: &[u32], place: &mut usize) -> u32
    ensures { reply result place.new ≡ check_reply list.now table.now }
{
    tell(check(list, table).and(Ok(0)), place)
}

// Makes the table of a column of inputs. The place is written, and the table where the number is 0. FORMAT 9.7, 9.8, 9.18
#[unsafe(no_mangle)]
pub extern "C" fn digit_table_make(
    list: &[u8],
    inputs: &[i64],
    table: &mut [u32],
    place: &mut usize,
) -> u32
    ensures { making (reply result place.new) table.new
        ≡ make_reply list.now inputs.now table.old }
{
    tell(make(list, inputs, table).and(Ok(0)), place)
}

// Calls a desk, lent as its three counts; all 0 is a fresh one. The place is written, and the counts are those after the call.
// FORMAT 9.12, 9.19
#[unsafe(no_mangle)]
pub extern "C" fn digit_table_desk_call(
    heard: &mut u64,
    accepted: &mut u64,
    refused: &mut u64,
    list: &[u8],
    table: &[u32],
    place: &mut usize,
) -> u32
    ensures { called (counted heard.new accepted.new refused.new) (reply result place.new)
        ≡ desk_call (counted heard.old accepted.old refused.old) list.now table.now }
{
    let desk = Desk {
        heard: *heard,
        accepted: *accepted,
        refused: *refused,
    };
    let call = desk.call(list, table);
    let after = call.desk;
    *heard = after.heard;
    *accepted = after.accepted;
    *refused = after.refused;
    tell(call.reply.and(Ok(0)), place)
}

// Shows a line: how many cells the part of the table has, and its first cell, which is written; both 0 where the part is empty.
// `show` is asked for the part of a table whose cells are their own numbers, so that the part tells where it starts. FORMAT 9.9, 9.10, 9.20
#[unsafe(no_mangle)]
#[tactic(auto, using(crate::proofs::Shown::nothing_shown, crate::proofs::Shown::shown_from_nothing))]
pub extern "C" fn digit_table_show(
    list: &[u8],
    table: &[u32],
    line: usize,
    first: &mut usize,
) -> usize
    ensures part { take result (drop first.new table.now) ≡ shown list.now table.now line }
    ensures count { result ≡ length (shown list.now table.now line) }
    ensures start { first.new ≡ shown_from list.now table.now line }
    ensures inside { first.new + result ≤ length table.now }
{
    let cells = table.len();
    if MOST_CELLS < cells {
        *first = 0;
        return 0;
    }
    let mut numbered: [u32; MOST_CELLS] = [0; MOST_CELLS];
    number_cells(&mut numbered);
    let part = show(list, &numbered[..cells], line);
    *first = first_of(part);
    part.len()
}

// Answers the program's whole input: the output begins with the answer, whose length is returned; where it has no room, nothing is written and
// 0 is returned. FORMAT 9.16, 9.20
#[unsafe(no_mangle)]
pub extern "C" fn digit_table_respond(input: &[u8], output: &mut [u8]) -> usize
    ensures { Answered (response_to input.now) output.old output.new result }
{
    respond(input, output)
}

// Writes a list that is given as words and numbers. The place is written, which is the text's length where the number is 0, and the buffer begins with
// the text where the number is 0. FORMAT 9.18, 9.23, 9.26, 9.27
#[unsafe(no_mangle)]
pub extern "C" fn digit_table_write(
    words: &[u8],
    counts: &[usize],
    numbers: &[i64],
    buffer: &mut [u8],
    place: &mut usize,
) -> u32
    ensures { writing (reply result place.new) buffer.new
        ≡ write_reply (lines_given words.now counts.now numbers.now) buffer.old }
{
    tell(write(words, counts, numbers, buffer), place)
}

// An answer as C is told it: a number, which is returned, and a place, which is written. FORMAT 9.3, 9.18
fn tell(answer: Result<usize, Refused>, place: &mut usize) -> u32
    ensures { reply result place.new ≡ answered answer }
{
    match answer {
        Ok(at) => {
            *place = at;
            0
        }
        Err(refused) => {
            *place = refused.place;
            u32::from(refused.refusal)
        }
    }
}

// The first cell of a part, and 0 where it is empty, as C is told it. FORMAT 9.20
fn first_of(part: &[u32]) -> usize
    ensures { result ≡ get_or part.now 0 0 }
{
    part.first().map_or(0, |&cell| cell as usize)
}

// Each cell holds its own number.
fn number_cells(cells: &mut [u32])
    requires { length cells.old ≤ cell_limit }
    ensures { cells.new ≡ range_with_len 0 (length cells.old) }
{
    for (i, cell) in cells.iter_mut().enumerate() {
        *cell = i as u32;
    }
}
