// Printed sheets, whole: `sheet BOOK`, with `|` for each newline; `prints BOOK`, which is held against the file that is wanted; `short BOOK`, into a
// buffer that is one byte too short.
use crate::books::{TEXT, load};
use crate::line::{Line, TOLD};
use crate::words::{line_at, word_at};
use std::rt::Files;

// The front of a text as a line.
fn on_one_line(text: &[u8]) -> Line {
    let mut line = Line::empty();
    for byte in text.iter().take(TOLD) {
        line.put(&[if *byte == b'\n' { b'|' } else { *byte }]);
    }
    line
}

// Into a lent buffer on the stack, as `lines::sheet`, which programs without a heap call, asks for it.
pub(crate) fn sheet(book: &[u8]) -> Line {
    let mut out = [0u8; lines::LONGEST];
    match lines::sheet(book, &mut out) {
        Ok(length) => on_one_line(&out[..length.min(lines::LONGEST)]),
        Err(_) => Line::of("too short"),
    }
}

// Whether the first bytes of what was printed are the text, and all of it.
fn printed(book: &[u8], wanted: &[u8]) -> bool {
    let mut out = [0u8; lines::LONGEST];
    match lines::sheet(book, &mut out) {
        Ok(length) => &out[..length.min(lines::LONGEST)] == wanted,
        Err(_) => false,
    }
}

// The line with the name of the file whose text is wanted, if the book prints just that; else the front of what it prints.
pub(crate) fn prints(rt: &impl Files, wanted: &[u8], book: &[u8]) -> Line {
    let mut room = [0u8; TEXT];
    let size = load(rt, word_at(wanted), &mut room);
    if !printed(book, &room[..size]) {
        return sheet(book);
    }
    let mut line = Line::empty();
    line.put(line_at(wanted));
    line
}

// What is told of a buffer that is one byte too short, and of its first and last byte, which were 7.
pub(crate) fn short(book: &[u8]) -> Line {
    let mut out = [7u8; 23231];
    match lines::sheet(book, &mut out) {
        Ok(_) => Line::of("written"),
        Err(_) => Line::of(format_args!("too short {} {}", out[0], out[23230])),
    }
}
