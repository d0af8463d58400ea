// The calls of the service, each printed on one line: the row's name, the call and what it was given, then what it returned and left.
ghost use Rattle.std.specs.Prelude.{◌≤◌, length};

use super::print::{print_list, print_numbers, print_value};
use refusal::Refused;
use service::{check, make, read, show};
use std::io;
use std::io::Print;

// Room for each worked table.
const ROOM: usize = 64;

// What a table is filled with before it is made: no cell of a worked table is this number.
const BLANK: u32 = 99;

// A row of the worked tables: a list, and a column of inputs for it.
#[derive(Clone, Copy)]
pub struct Row<'a> {
    pub name: &'a str,
    pub list: &'a [u8],
    pub inputs: &'a [i64],
}

// 0, 0 or a refusal's number and place. `Refused` has no `Display`: nothing else prints a reply so, and `program` writes its own text into lent memory.
// FORMAT 9.3
fn print_reply(rt: &impl Print, reply: Result<(), Refused>) -> io::Result<()> {
    match reply {
        Ok(()) => print!(rt; ": 0 0"),
        Err(refused) => {
            let number = u32::from(refused.refusal);
            let place = refused.place;
            print!(rt; ": {number} {place}")
        }
    }
}

// What a making left: the cells of a made table, and of a refused one whether it is as it was.
fn print_left(rt: &impl Print, reply: Result<(), Refused>, table: &[u32]) -> io::Result<()> {
    if reply.is_ok() {
        print!(rt; ":")?;
        print_numbers(rt, table)
    } else if table.iter().all(|&cell| cell == BLANK) {
        print!(rt; ": table unchanged")
    } else {
        print!(rt; ": table changed")
    }
}

// How many cells a table of this list has, and no more than the room has. A table that is too short for its list is refused 13. Of a refused list it
// is 0 and no `None`: the call that is then made with an empty table is what tells the refusal.
fn cell_count(list: &[u8], room: &[u32]) -> usize
    ensures { result ≤ length room.now }
{
    read(list).map_or(0, |summary| summary.cells.min(room.len()))
}

impl Row<'_> {
    fn print_call(&self, rt: &impl Print, call: &str) -> io::Result<()> {
        let name = self.name;
        print!(rt; "{name} {call} (")?;
        print_list(rt, self.list)?;
        print!(rt; ")")
    }

    pub fn run_read(&self, rt: &impl Print) -> io::Result<()> {
        self.print_call(rt, "read")?;
        match read(self.list) {
            Ok(summary) => {
                let p = summary.p;
                let values = summary.values;
                let cells = summary.cells;
                let rows = summary.rows;
                print!(rt; ": p {p}, values {values}, cells {cells}, rows {rows}")?;
            }
            Err(refused) => print_reply(rt, Err(refused))?,
        }
        println!(rt)
    }

    pub fn run_make(&self, rt: &impl Print) -> io::Result<()> {
        self.print_call(rt, "make")?;
        print_numbers(rt, self.inputs)?;
        let mut room: [u32; ROOM] = [BLANK; ROOM];
        let cells = cell_count(self.list, &room);
        let table = &mut room[..cells];
        let reply = make(self.list, self.inputs, table);
        print_reply(rt, reply)?;
        print_left(rt, reply, table)?;
        println!(rt)
    }

    // The cells of a line that makes a value, in the table that is made, and the value: what the first of them stands for.
    pub fn run_show(&self, rt: &impl Print, line: usize) -> io::Result<()> {
        self.print_call(rt, "show")?;
        print_numbers(rt, self.inputs)?;
        print!(rt; " line {line}:")?;
        let mut room: [u32; ROOM] = [BLANK; ROOM];
        let cells = cell_count(self.list, &room);
        let table = &mut room[..cells];
        let _reply = make(self.list, self.inputs, table);
        let shown = show(self.list, table, line);
        print_numbers(rt, shown)?;
        print!(rt; ", value")?;
        if let Ok(summary) = read(self.list) {
            print_value(rt, shown, summary.p)?;
        }
        println!(rt)
    }

    // The table that is made, with another number in one cell.
    pub fn run_check(&self, rt: &impl Print, cell: usize, number: u32) -> io::Result<()> {
        self.print_call(rt, "check")?;
        let mut room: [u32; ROOM] = [BLANK; ROOM];
        let cells = cell_count(self.list, &room);
        let table = &mut room[..cells];
        let _reply = make(self.list, self.inputs, table);
        if cell < table.len() {
            table[cell] = number;
        }
        print_numbers(rt, table)?;
        print_reply(rt, check(self.list, table))?;
        println!(rt)
    }
}
