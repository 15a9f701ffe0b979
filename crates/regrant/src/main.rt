// One person's holdings in a book changed, and the book written again: the code that README shows under "Writing a book". Row 1 of book B, 102, who
// holds 10 alone, gets to hold 10 and 20; the sheet is printed before and after.
#![tactic(auto)]

use roster::Policy;
use std::io;
use values::NotWritten;

// The book with these holdings in this row, at the front of the buffer, or why it is not written. A refused book has no values, and so gives 12; a
// row that the book has not plays no part.
fn regrant(book: &[u8], row: usize, holdings: u32, out: &mut [u8]) -> Result<usize, NotWritten> {
    let mut values = values::of_book(book);
    if row < Policy::ROWS {
        values.rows[row].holdings = holdings;
    }
    values::write(values, out)
}

fn show_sheet(rt: &impl Print, book: &[u8]) -> io::Result<()> {
    let mut text = [0u8; lines::LONGEST];
    match lines::sheet(book, &mut text) {
        Ok(length) => rt.write_all(&text[..length.min(lines::LONGEST)]),
        Err(_) => Ok(()),
    }
}

fn main(rt: HostRuntime) -> io::Result<()> {
    let mut bytes = [0u8; values::LONGEST];
    let length = input::read_file(&rt, "b.book", &mut bytes).unwrap_or(0);
    let book = &bytes[..length];
    show_sheet(&rt, book)?;

    let mut out = [0u8; values::LONGEST];
    match regrant(book, 1, 3, &mut out) {
        Ok(length) => {
            println!(rt; "written, {length} bytes")?;
            show_sheet(&rt, &out[..length.min(values::LONGEST)])
        }
        Err(not) => {
            let number = not.why.number();
            println!(rt; "not written, {number}")
        }
    }
}
