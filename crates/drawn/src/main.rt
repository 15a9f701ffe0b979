// Drawn books, shown as tables and made again. Each table is made as it is shown and as other programs would have saved it; the book that comes back
// has to be the same, byte by byte. Of each way to save a table it prints how many books were compared and how many differ, which has to be none;
// then of some that are compared with a wrong book, which each way has to find.
#![tactic(auto)]

mod draw;
mod saved;

use saved::Way;
use std::io;
use table::Shown;

// As many books are drawn, and as many of them are compared with a wrong one.
const BOOKS: usize = 3000;

const PLANTED: usize = 10;

// A book of the drawn values, in the first `length` bytes; of no bytes if the values cannot be written. An array with its length and no `Vec`: a
// `Vec` would let each comparison fail for want of memory.
#[derive(Clone, Copy)]
struct Book {
    bytes: [u8; values::LONGEST],
    length: usize,
}

fn drawn(seed: u64) -> Book {
    let mut bytes = [0u8; values::LONGEST];
    match values::write(draw::values(seed), &mut bytes) {
        Ok(length) => Book { bytes, length },
        Err(_) => Book { bytes, length: 0 },
    }
}

impl Book {
    fn text(&self) -> &[u8] {
        &self.bytes[..self.length.min(values::LONGEST)]
    }
}

// Whether the table, saved in this way, gives this book.
fn gives(table: &[u8], way: Way, book: &[u8]) -> bool {
    let mut text = [0u8; saved::ROOM];
    let length = saved::put(table, &mut text, way);
    let mut made = [0u8; values::LONGEST];
    match table::make(&text[..length.min(saved::ROOM)], &mut made) {
        Ok(size) => &made[..size.min(values::LONGEST)] == book,
        Err(_) => false,
    }
}

// Whether what is shown of a book, saved in this way, gives this other one.
fn comes_back(shown: &[u8], way: Way, book: &[u8]) -> bool {
    let mut table = [0u8; table::LONGEST];
    match table::show(shown, &mut table) {
        Ok(Shown::Table(length)) => gives(&table[..length.min(table::LONGEST)], way, book),
        _ => false,
    }
}

// Whether a drawn book comes back, with so much added to the first byte of the one that it is compared with.
fn stands(seed: u64, way: Way, added: u8) -> bool {
    let book = drawn(seed);
    let mut other = book;
    other.bytes[0] = other.bytes[0].wrapping_add(added);
    comes_back(book.text(), way, other.text())
}

// How many of so many books differ.
fn differing(way: Way, books: usize, added: u8) -> u64 {
    let mut seed = draw::FIRST;
    let mut differ: u64 = 0;
    for _ in 0..books {
        if !stands(seed, way, added) {
            differ = differ.saturating_add(1);
        }
        seed = draw::next(seed);
    }
    differ
}

// "NAME: N compared, M differ"
fn show_counts(rt: &impl Print, name: &str, compared: usize, differ: u64) -> io::Result<()> {
    println!(rt; "{name}: {compared} compared, {differ} differ")
}

fn show_way(rt: &impl Print, way: Way) -> io::Result<()> {
    show_counts(rt, way.name, BOOKS, differing(way, BOOKS, 0))?;
    print!(rt; "planted, ")?;
    show_counts(rt, way.name, PLANTED, differing(way, PLANTED, 1))
}

fn main(rt: HostRuntime) -> io::Result<()> {
    for way in Way::all() {
        show_way(&rt, way)?;
    }
    Ok(())
}
