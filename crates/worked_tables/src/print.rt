// Printing on one line, without its end: a list with its tabs as blanks, a column of inputs and a table with a blank before each number.
use number::residue::{residue_at, signed_value};
use number::whole::{is_negative, magnitude};
use number::{Cell, Residue, Whole};
use std::fmt::Display;
use std::io;
use std::io::Print;

// By hand, as `number` has no `Display`: this program alone prints a whole number. Below zero, n is -(m + 1) for its magnitude m.
fn print_whole(rt: &impl Print, n: Whole) -> io::Result<()> {
    let m = magnitude(n);
    if is_negative(n) {
        let size = m + 1;
        print!(rt; " -{size}")
    } else {
        print!(rt; " {m}")
    }
}

// A column of inputs, or the cells of a table.
pub fn print_numbers<N: Display>(rt: &impl Print, numbers: &[N]) -> io::Result<()> {
    for number in numbers {
        print!(rt; " {number}")?;
    }
    Ok(())
}

// The whole number that the first cell stands for, its signed value. A cell of p or more is no remainder, and stands for none. FORMAT 1.7, 1.8
pub fn print_value(rt: &impl Print, cells: &[u32], p: u32) -> io::Result<()> {
    if cells.is_empty() {
        return Ok(());
    }
    let cell = residue_at(cells, Cell::from(0));
    if cell < Residue::from(p) {
        print_whole(rt, signed_value(cell, p))?;
    }
    Ok(())
}

// A comma between two lines of the list.
pub fn print_list(rt: &impl Print, list: &[u8]) -> io::Result<()> {
    for (i, &byte) in list.iter().enumerate() {
        match byte {
            b'\t' => print!(rt; " ")?,
            b'\n' => {
                if i + 1 < list.len() {
                    print!(rt; ", ")?;
                }
            }
            _ => rt.write_all(&[byte])?,
        }
    }
    Ok(())
}
