// The writer of a book, as cases ask it. `writes VALUES room 61`, with the values entry by entry, `code 10 code 20 row 101 3 policy 3 1 2 2`;
// `account 101 7 3` is a row with a person number, `edition 2` behind a policy its edition, which is 1 without it, `old`, `persons` and `editions` say
// the form, `codes 33`, `rows 65` and `policies 33` say a count by itself, and `of B` or `of file weekend.book` takes the values of that
// book. What comes is the length and the bytes, or the number and the place. `again BOOK` reads a book and writes it. Every byte that is not the book's
// has to be as it was.
use crate::books::called;
use crate::draft::{Draft, ROOM};
use crate::line::Line;
use crate::reader::bad;
use crate::words::{
    behind, narrow, next_word, number_at, numbers, word_at, word_behind, words_from,
};
use book::{Form, Row};
use roster::Policy;
use std::rt::Files;
use values::{NotWritten, Values};

// What every byte of the buffer is before, which the writer is lent as an array, to see that it touches nothing else.
const BEFORE: u8 = 7;

// ---- values

// More than any text here has entries: no count is moved on past it.
const ENTRIES: usize = 1000000;

// An entry more behind those that are counted; it is counted where there is no place for it, too.
fn add<T: Copy>(entries: &mut [T], count: &mut usize, entry: T) {
    if let Some(place) = entries.get_mut(*count) {
        *place = entry;
    }
    if *count < ENTRIES {
        *count += 1;
    }
}

fn add_row(values: &mut Values, staff: u32, person: u32, holdings: u32) {
    let row = Row {
        staff,
        person,
        holdings,
    };
    add(&mut values.rows, &mut values.row_count, row);
}

// The policy that stands here: `policy 3 1 2 2`, or `policy 3 1 2 2 edition 2`.
fn policy_at(text: &[u8]) -> Policy {
    let [task, away, crews, size, _, edition] = numbers::<6>(text, 1);
    let has_edition = word_at(word_behind(text, 5)) == "edition";
    Policy {
        task: narrow(task),
        away: narrow(away),
        crews: crews as usize,
        size: narrow(size),
        edition: if has_edition { narrow(edition) } else { 1 },
    }
}

// The values with the entry that stands here. A number is none: it belongs to the word before it.
fn with_entry(rt: &impl Files, mut values: Values, text: &[u8]) -> Values {
    let [first, second, third] = numbers::<3>(text, 1);
    let staff = narrow(first);
    let second = narrow(second);
    match word_at(text) {
        "code" => add(
            &mut values.codes,
            &mut values.code_count,
            (first % 65536) as u16,
        ),
        "row" => add_row(&mut values, staff, staff, second),
        "account" => add_row(&mut values, staff, second, narrow(third)),
        "policy" => add(
            &mut values.policies,
            &mut values.policy_count,
            policy_at(text),
        ),
        "of" => {
            let book = called(rt, next_word(text));
            return values::of_book(book.unwrap_or(Draft::empty()).book());
        }
        "old" => values.form = Form::Old,
        "persons" => values.form = Form::Persons,
        "editions" => values.form = Form::Editions,
        "codes" => values.code_count = first as usize,
        "rows" => values.row_count = first as usize,
        "policies" => values.policy_count = first as usize,
        _ => {}
    }
    values
}

// The values that stand from here to `room`.
fn values_at(rt: &impl Files, text: &[u8]) -> Values {
    let mut values = Values::none();
    for entry in words_from(text) {
        if word_at(entry) == "room" {
            break;
        }
        values = with_entry(rt, values, entry);
    }
    values
}

// ---- what is written

// The first place from here on that is not as it was.
fn touched(bytes: &[u8; ROOM], from: usize) -> Option<usize> {
    let mut places = bytes.iter().enumerate().skip(from);
    let (place, _) = places.find(|(_, byte)| **byte != BEFORE)?;
    Some(place)
}

// What was touched from here on, which should be nothing, behind the line.
fn with_touched(line: &mut Line, bytes: &[u8; ROOM], from: usize) {
    if let Some(place) = touched(bytes, from) {
        write!(line, " touched {place}");
    }
}

// What came of writing, and what the buffer then has.
fn told(wrote: Result<usize, NotWritten>, bytes: &[u8; ROOM]) -> Line {
    match wrote {
        Ok(length) => {
            let mut line = Line::of(format_args!("written {length}"));
            for byte in bytes.iter().take(length) {
                write!(line, " {byte}");
            }
            with_touched(&mut line, bytes, length);
            line
        }
        Err(refused) => {
            let mut line = bad(refused.why.number(), refused.place);
            with_touched(&mut line, bytes, 0);
            line
        }
    }
}

// Into so many bytes of the buffer, or into all of it where there are not so many.
pub(crate) fn writes(rt: &impl Files, text: &[u8]) -> Line {
    let (room, _) = number_at(behind(text, "room"));
    let mut bytes = [BEFORE; ROOM];
    let room = (room as usize).min(ROOM);
    let wrote = values::write(values_at(rt, text), &mut bytes[..room]);
    told(wrote, &bytes)
}

// Whether this is the book, with nothing touched behind it.
fn is_book(book: &[u8], length: usize, bytes: &[u8; ROOM]) -> bool {
    &bytes[..length.min(ROOM)] == book && touched(bytes, length).is_none()
}

// A book read and written again, where there is room for more: its length if the bytes are the same, and else what came.
pub(crate) fn again(book: &[u8]) -> Line {
    let mut bytes = [BEFORE; ROOM];
    let wrote = values::write(values::of_book(book), &mut bytes);
    match wrote {
        Ok(length) if is_book(book, length, &bytes) => Line::of(format_args!("same {length}")),
        _ => told(wrote, &bytes),
    }
}
