// Questions as files list them, a line for each, `QUESTION -> ANSWER`; the case `all FILE` puts each of them.
//     named P d t EDITION ABSENT 0 0 ALLOWANCE row...
//     why P d t EDITION ABSENT 0 0 ALLOWANCE row...
//     policy skip|full P s d t EDITION 0 0 0 ALLOWANCE row...
// Bit i of ABSENT is person i, and a row is HOLDINGS or HOLDINGS:PERSON; the zeros are not looked at. Lines that begin with `#` are passed over. An
// answer is what explained.rt tells, or the verdict, the units, the eight crews, the sites, which are 0 here, and the blocker; sets are masks.
use crate::asked::{held_at, nobody, with_rows};
use crate::books::{TEXT, text};
use crate::cases::Outcome;
use crate::explained::Told;
use crate::line::{Line, Masks};
use crate::words::{
    behind, byte_at, line_at, lines_from, narrow, next_word, numbers, word_at, word_behind,
    words_from,
};
use accounts::Accounts;
use questions::Way;
use roster::Policy;
use std::rt::Files;

// The policy P s d t EDITION that stands from this word on.
pub(crate) fn policy_at(line: &[u8], from: usize) -> Policy {
    let [task, away, crews, size, edition] = numbers::<5>(line, from);
    Policy {
        task: narrow(task),
        away: narrow(away),
        crews: crews as usize,
        size: narrow(size),
        edition: narrow(edition),
    }
}

// The policy P d t that stands behind the first word, of this edition. How many may be away plays no part for a named absence: it is a number here that
// is refused where it does.
pub(crate) fn named_policy(line: &[u8], edition: u64) -> Policy {
    let [task, crews, size] = numbers::<3>(line, 1);
    Policy {
        task: narrow(task),
        away: 65,
        crews: crews as usize,
        size: narrow(size),
        edition: narrow(edition),
    }
}

// The rows that stand from here to the arrow.
fn rows_at(text: &[u8]) -> Accounts {
    let mut accounts = nobody();
    for row in words_from(text) {
        if word_at(row) == "->" {
            break;
        }
        accounts = with_rows(accounts, held_at(row, 1));
    }
    accounts
}

pub(crate) fn way_of(word: &str) -> Way {
    if word == "full" {
        Way::Full
    } else {
        Way::Skipping
    }
}

// What comes of a policy question.
fn policy(line: &[u8]) -> Line {
    let accounts = rows_at(word_behind(line, 11));
    let asked = policy_at(line, 2);
    let [allowance] = numbers::<1>(line, 10);
    let reply = questions::ask(
        way_of(word_at(next_word(line))),
        accounts,
        asked,
        narrow(allowance),
    );
    Line::of(Masks(reply))
}

// What comes of a question for a named absence, or of why it blocks.
fn named(line: &[u8]) -> Line {
    let accounts = rows_at(word_behind(line, 9));
    let [edition, absent, _, _, allowance] = numbers::<5>(line, 4);
    let asked = named_policy(line, edition);
    let allowance = narrow(allowance);
    if word_at(line) == "why" {
        let explained = reasons::why(accounts, asked, absent, allowance);
        return Line::of(Told(explained));
    }
    let reply = questions::ask_named(accounts, asked, absent, allowance);
    Line::of(Masks(reply))
}

// What comes of the question.
fn answered(line: &[u8]) -> Line {
    match word_at(line) {
        "policy" => policy(line),
        "named" | "why" => named(line),
        _ => Line::of("no such question"),
    }
}

// The question of this line, held against its answer.
fn compared(line: &[u8]) -> Outcome {
    let came = answered(line);
    let same = came.bytes() == line_at(behind(line, "->"));
    let mut told = Line::empty();
    for part in [line_at(line), b" came ", came.bytes()] {
        told.put(part);
    }
    Outcome::one(same, told)
}

// Each question of the file with this name.
pub(crate) fn all(rt: &impl Files, name: &str) -> Outcome {
    let mut room = [0u8; TEXT];
    let mut outcome = Outcome::none();
    for line in lines_from(text(rt, name, &mut room)) {
        if byte_at(line) != b'#' {
            outcome.add(compared(line));
        }
    }
    outcome
}
