// The policy question, by either search, and the question for a named absence, as cases ask them:
//     skipping TABLE POLICY         full TABLE POLICY         named TABLE POLICY absent PERSONS
// A table is the holdings of its rows, `3,1,2,3`, in which `64x1` stands for 64 rows that hold 1, and `-` for no row. `3:7` is a row of the person with
// the number 7; a row without a person number is a person of its own. A policy is P;s,d,t of the first edition, or P;s,d,t;E; persons are joined by
// commas. `with N` at the end is the allowance, which is ample without it.
use crate::line::{Line, Replied};
use crate::words::{behind, behind_bytes, byte_at, narrow, next_word, number_at};
use accounts::Accounts;
use questions::Way;
use roster::Policy;

// More than any need here.
const AMPLE: u32 = 4294967295;

// What stands past the row count plays no part: everything is held there, by the person of the first row if that is its own.
const NOISE: u32 = 4294967295;

// Rows that hold the same, whose they are, one person's or each its own, and what stands behind them.
#[derive(Clone, Copy)]
pub struct Alike<'a> {
    count: usize,
    held: u32,
    person: Option<u32>,
    rest: &'a [u8],
}

impl<'a> Alike<'a> {
    // The person number that this row has of them. No person number of a case is as large as those of rows that are their own.
    fn person_of(&self, row: usize) -> u32 {
        self.person
            .unwrap_or(NOISE.wrapping_sub(narrow(row as u64)))
    }
}

// So many rows that hold this, each its own person, or all of the one whose number follows.
pub(crate) fn held_at(text: &[u8], count: u64) -> Alike<'_> {
    let (held, rest) = number_at(text);
    let (person, rest) = match rest {
        [b':', number @ ..] => {
            let (person, rest) = number_at(number);
            (Some(narrow(person)), rest)
        }
        _ => (None, rest),
    };
    Alike {
        count: count as usize,
        held: narrow(held),
        person,
        rest,
    }
}

// Rows as they are written, `64x1` or one.
fn alike_at(text: &[u8]) -> Alike<'_> {
    match number_at(text) {
        (count, [b'x', held @ ..]) => held_at(held, count),
        _ => held_at(text, 1),
    }
}

// These rows behind the others.
pub(crate) fn with_rows(mut accounts: Accounts, alike: Alike) -> Accounts {
    let from = accounts.rows;
    let to = from.wrapping_add(alike.count);
    // two arrays are written at a row: zipped, they read no plainer
    for row in from..to.min(Policy::ROWS) {
        accounts.holdings[row] = alike.held;
        accounts.persons[row] = alike.person_of(row);
    }
    accounts.rows = to;
    accounts
}

// No row yet.
pub(crate) fn nobody() -> Accounts {
    Accounts {
        holdings: [NOISE; Policy::ROWS],
        persons: [NOISE; Policy::ROWS],
        rows: 0,
    }
}

// The table that stands here: as many entries as a table has at most, up to one that has no number.
fn accounts_at(text: &[u8]) -> Accounts {
    let mut accounts = nobody();
    let mut place = text;
    for _ in 0..Policy::ROWS {
        let alike = alike_at(place);
        if alike.rest.len() == place.len() {
            break;
        }
        accounts = with_rows(accounts, alike);
        if byte_at(alike.rest) != b',' {
            break;
        }
        place = behind_bytes(alike.rest, 1);
    }
    accounts
}

// Whatever stands between two numbers, it is one byte.
fn policy_at(text: &[u8]) -> Policy {
    let (task, rest) = number_at(text);
    let (away, rest) = number_at(behind_bytes(rest, 1));
    let (crews, rest) = number_at(behind_bytes(rest, 1));
    let (size, rest) = number_at(behind_bytes(rest, 1));
    Policy {
        task: narrow(task),
        away: narrow(away),
        crews: crews as usize,
        size: narrow(size),
        edition: edition_at(rest),
    }
}

// The edition that stands behind t; the first where none does.
fn edition_at(text: &[u8]) -> u32 {
    if byte_at(text) != b';' {
        return 1;
    }
    let (edition, _) = number_at(behind_bytes(text, 1));
    narrow(edition)
}

// The set of the persons that stand here, up to where there is no number.
fn set_at(text: &[u8]) -> u64 {
    let mut set = 0;
    let mut place = text;
    for _ in 0..Policy::ROWS {
        let (person, rest) = number_at(place);
        if rest.len() == place.len() {
            break;
        }
        set |= 1u64.checked_shl(narrow(person)).unwrap_or(0);
        if byte_at(rest) != b',' {
            break;
        }
        place = behind_bytes(rest, 1);
    }
    set
}

fn allowance_at(text: &[u8]) -> u32 {
    let place = behind(text, "with");
    if byte_at(place) == b'\n' {
        return AMPLE;
    }
    let (allowance, _) = number_at(place);
    narrow(allowance)
}

// A question: TABLE POLICY, and behind it what there is of the absent and the allowance.
#[derive(Clone, Copy)]
pub struct Asked {
    pub accounts: Accounts,
    pub policy: Policy,
    pub absent: u64,
    pub allowance: u32,
}

impl Asked {
    // The question that stands here.
    pub(crate) fn read(text: &[u8]) -> Asked {
        Asked {
            accounts: accounts_at(text),
            policy: policy_at(next_word(text)),
            absent: set_at(behind(text, "absent")),
            allowance: allowance_at(text),
        }
    }
}

pub(crate) fn policy(way: Way, text: &[u8]) -> Line {
    let asked = Asked::read(text);
    let reply = questions::ask(way, asked.accounts, asked.policy, asked.allowance);
    Line::of(Replied(reply))
}

// How many may be away plays no part here.
pub(crate) fn named(text: &[u8]) -> Line {
    let asked = Asked::read(text);
    let reply = questions::ask_named(asked.accounts, asked.policy, asked.absent, asked.allowance);
    Line::of(Replied(reply))
}
