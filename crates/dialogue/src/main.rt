// A live roster at a terminal: calls and questions as lines of text on standard input, an answer to each on standard output. `bin/roster` runs it;
// its argument, if there is one, is a book, with whose roster it begins.
#![tactic(auto)]

mod asked;
mod board;
mod books;
mod said;
mod typed;
mod words;

use board::Board;
use desk::NotTaken;
use std::env::FillError;
use std::rt::{Env, Files, Runtime};
use typed::{Ended, Line};

fn complain(rt: &impl Eprint, text: &str) {
    let _ = eprintln!(rt; "roster: {text}");
}

// The book's number and place, as the sheet has them.
fn complain_of_book(rt: &impl Eprint, number: u64, place: u64) {
    let _ = eprintln!(rt; "roster: the book is not taken: bad {number} {place}");
}

// Why the book's rows were not taken.
fn not_taken(rt: &impl Eprint, why: NotTaken) {
    match why {
        NotTaken::Shared => complain(
            rt,
            "the book is not taken: two of its rows are one person's",
        ),
        NotTaken::Refused(refused) => complain_of_book(
            rt,
            u64::from(refused.fault.number()),
            refused.place as u64,
        ),
    }
}

// The board with the book's roster; none where the book is not taken, which is complained of.
fn of_book(rt: &impl Eprint, book: &[u8]) -> Option<Board> {
    match desk::fill(book) {
        Ok(roster) => Some(Board {
            roster,
            values: values::of_book(book),
            is_heard: true,
        }),
        Err(why) => {
            not_taken(rt, why);
            None
        }
    }
}

// The board of the book with this name. One byte more than the longest book has is enough to refuse what is longer.
fn of_name(rt: &(impl Files + Eprint), name: &str) -> Option<Board> {
    let mut book = [0u8; lines::ENOUGH];
    let Some(size) = input::read_file(rt, name, &mut book) else {
        complain(rt, "the book cannot be read");
        return None;
    };
    of_book(rt, &book[..size])
}

// The name has to be text; there is no longer path.
fn of_argument(rt: &(impl Files + Eprint), argument: Option<&[u8]>) -> Option<Board> {
    if let Some(bytes) = argument
        && let Ok(name) = str::from_utf8(bytes)
    {
        return of_name(rt, name);
    }
    complain(rt, "the book cannot be read");
    None
}

// The board to begin with, if there is one.
fn beginning(rt: &(impl Files + Env + Eprint)) -> Option<Board> {
    let mut name = [0u8; 4096];
    match rt.arg(1, &mut name) {
        Ok(length) => of_argument(rt, Some(&name[..length])),
        Err(FillError::TooLong) => of_argument(rt, None),
        Err(FillError::NotPresent) => Some(Board::empty()),
    }
}

// A line's answer.
fn answered(rt: &(impl Files + Print), board: Board, line: &Line) -> Board {
    match line.text() {
        Some(text) => asked::answer(rt, board, text),
        None => board.heard(said::text(
            rt,
            b"not understood: a line has at most 1000 characters\n",
        )),
    }
}

// Whether there is a next line, and somebody to hear its answer; if the input or the output has failed, it says so.
fn goes_on(rt: &impl Eprint, board: Board, ended: Ended) -> bool {
    if !board.is_heard {
        complain(rt, "the output cannot be written");
        return false;
    }
    match ended {
        Ended::Newline => true,
        Ended::Input => false,
        Ended::Failed => {
            complain(rt, "standard input cannot be read");
            false
        }
    }
}

// Answers line by line until the input ends. The count of turns is one that no run uses up.
fn talk<R: Runtime>(rt: &R, mut board: Board) {
    let mut from = rt.reader();
    for _ in 0..u64::MAX {
        let (line, ended) = typed::next_line(&mut from);
        board = answered(rt, board, &line);
        if !goes_on(rt, board, ended) {
            return;
        }
    }
}

fn main(rt: HostRuntime) {
    if let Some(board) = beginning(&rt) {
        talk(&rt, board);
    }
}
