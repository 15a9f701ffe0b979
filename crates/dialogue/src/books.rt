// The roster's book: the rows that stand in the roster now, with the codes and policies of the book that it came from.
use crate::board::Board;
use crate::said;
use std::fs::{File, OpenFile};
use std::io;
use std::io::Write;
use std::rt::Files;
use values::NotWritten;

// Puts the roster's book into the buffer, and answers how many bytes it has.
fn lay_out(board: Board, out: &mut [u8]) -> Result<usize, NotWritten> {
    let roster = board.roster;
    let values = board.values;
    values::write(desk::give_back(roster, values), out)
}

// Why there is no book; the codes and policies of a good book, and rows that a roster gives back, have one always.
fn no_book(rt: &impl Print, why: u32) -> bool {
    said::text(rt, b"there is no such book:");
    said::number(rt, b' ', u64::from(why));
    said::end(rt)
}

// What `bin/sheet` prints of the roster's book.
pub(crate) fn sheet(rt: &impl Print, board: Board) -> bool {
    let values = board.values;
    if values.policy_count == 0 {
        return said::text(rt, b"there are no policies\n");
    }
    let mut book = [0u8; values::LONGEST];
    match lay_out(board, &mut book) {
        Ok(length) => show(rt, &book[..length.min(values::LONGEST)]),
        Err(not) => no_book(rt, not.why.number()),
    }
}

fn show(rt: &impl Print, book: &[u8]) -> bool {
    let mut text = [0u8; lines::LONGEST];
    match lines::sheet(book, &mut text) {
        Ok(length) => said::text(rt, &text[..length.min(lines::LONGEST)]),
        Err(_) => false,
    }
}

// Writes the roster's book into a new file.
pub(crate) fn write(rt: &(impl Files + Print), board: Board, name: &[u8]) -> bool {
    let mut book = [0u8; values::LONGEST];
    match lay_out(board, &mut book) {
        Ok(length) => save(rt, name, &book[..length.min(values::LONGEST)]),
        Err(not) => no_book(rt, not.why.number()),
    }
}

// Puts the book into the new file, as far as the system takes it.
fn fill(file: &mut (impl Write + OpenFile), book: &[u8]) -> io::Result<()> {
    file.write_all(book)?;
    file.sync_all()
}

// A file that is there already is not written over.
fn save(rt: &(impl Files + Print), name: &[u8], book: &[u8]) -> bool {
    match created(rt, name) {
        Ok(mut file) => filled(rt, fill(&mut file, book).is_ok(), book.len()),
        Err(_) => said::text(
            rt,
            b"not written: no such file can be made, or there is one already\n",
        ),
    }
}

// The new file with this name, which has to be text.
fn created<R: Files>(rt: &R, name: &[u8]) -> io::Result<R::File> {
    match str::from_utf8(name) {
        Ok(path) => File::create_new(rt, path),
        Err(_) => Err(io::Error::from(io::ErrorKind::InvalidInput)),
    }
}

fn filled(rt: &impl Print, is_whole: bool, length: usize) -> bool {
    if !is_whole {
        return said::text(rt, b"not written: the file could not be filled\n");
    }
    said::text(rt, b"written,");
    said::number(rt, b' ', length as u64);
    said::text(rt, b" bytes\n")
}
