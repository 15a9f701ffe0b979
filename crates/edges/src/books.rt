// A book as cases write it, entry by entry: `count 2 code 10 code 20 count 1 row 101 3 count 1 policy 3 1 2 2`, with `account 101 7 3` for a row that
// has a person number, `edition 2` behind a policy that has one, `byte 0` for any byte and `cut 13` for the first 13 bytes of what stands before. Some
// have names: `B`, `listed`, `longest`, `permissions 31` for the codes from 0 to 30, `file weekend.book` for what that file has.
ghost use Rattle.std.specs.Counts.{IsPrefixLen};

use crate::draft::{Draft, ROOM};
use crate::words::{byte_of, narrow, next_word, number_at, numbers, word_at, words_from};
use arrayvec::ArrayVec;
use std::rt::Files;

// No text of a file is longer.
pub const TEXT: usize = 65536;

// Puts what the file has into the buffer, and answers how many bytes: none where there is no such file. `input::read_file` reads into a lent buffer.
pub(crate) fn load(rt: &impl Files, name: &str, room: &mut [u8]) -> usize
    ensures { IsPrefixLen result room.new }
{
    input::read_file(rt, name, room).unwrap_or(0)
}

// The same as a text.
pub(crate) fn text<'a>(rt: &impl Files, name: &str, room: &'a mut [u8; TEXT]) -> &'a [u8] {
    let size = load(rt, name, room);
    &room[..size]
}

fn book_of_file(rt: &impl Files, name: &str) -> Draft {
    let mut room = [0u8; ROOM];
    let length = load(rt, name, &mut room);
    Draft {
        bytes: ArrayVec::from(room),
        length,
    }
}

// The book that the word that stands here calls by a name, if it does.
pub(crate) fn called(rt: &impl Files, text: &[u8]) -> Option<Draft> {
    let named = next_word(text);
    Some(match word_at(text) {
        "B" => Draft::b(),
        "listed" => Draft::listed(),
        "longest" => Draft::longest(),
        "permissions" => Draft::permissions_to(byte_of(number_at(named).0)),
        "file" => book_of_file(rt, word_at(named)),
        _ => return None,
    })
}

// The entry that stands here, put behind the others. A number is none: it belongs to the word before it.
fn add_entry(book: &mut Draft, text: &[u8]) {
    let [first, second, third, fourth] = numbers::<4>(text, 1);
    match word_at(text) {
        "count" => book.count(byte_of(first)),
        "byte" | "edition" => book.byte(byte_of(first)),
        "code" => book.code((narrow(first) % 65536) as u16),
        "row" => book.row(narrow(first), narrow(second)),
        "account" => book.account(narrow(first), narrow(second), narrow(third)),
        "policy" => book.policy(
            narrow(first),
            byte_of(second),
            byte_of(third),
            byte_of(fourth),
        ),
        "cut" => book.cut(first as usize),
        _ => {}
    }
}

// The book that stands from here to `=`.
pub(crate) fn book_at(rt: &impl Files, text: &[u8]) -> Draft {
    let mut book = Draft::empty();
    for entry in words_from(text) {
        if word_at(entry) == "=" {
            break;
        }
        match called(rt, entry) {
            Some(named) => book = named,
            None => add_entry(&mut book, entry),
        }
    }
    book
}
