// What a line says, and what is answered. The board, the line and the terminal go together from one function to the next, and the terminal is a handle: a
// value of the three would be made for each line and taken apart by each answer.
ghost use Rattle.std.specs.Prelude.{◌<◌, IfOk};

use crate::board::Board;
use crate::{books, said, words};
use live::{Objection, Roster, Told, Way};
use roster::Policy;
use std::rt::Files;

// As much as the sheet allows.
const ALLOWANCE: u32 = 1000000;

// The number of no permission, of which a roster says that there is no such permission: `Roster::grant` and `revoke` take a number and refuse this one.
const NO_PERMISSION: u32 = 32;

// What the items of a list are.
#[derive(Clone, Copy)]
enum Items {
    People,
    Permissions,
}

// Why a list is no set of rows or of permissions: something in it is not there, or is no number.
#[derive(Clone, Copy)]
enum Unlisted {
    NoSuch,
    Not,
}

// Whether the line is this word, with so many words in all.
fn is_line(text: &[u8], word: &[u8], words: usize) -> bool {
    words::has_words(text, words) && words::word(text, 0) == word
}

// ---- calls

fn done(rt: &impl Print, place: usize) -> bool {
    said::text(rt, b"ok, place");
    said::number(rt, b' ', place as u64);
    said::end(rt)
}

// The call's answer, and the board that it leaves.
fn called(rt: &impl Print, board: Board, told: Told) -> Board {
    let is_heard = match told.outcome {
        Ok(place) => done(rt, place),
        Err(objection) => said::objection(rt, objection),
    };
    board.with(told.roster).heard(is_heard)
}

// The permission with this code, by the number that a roster has for it.
fn permission(board: Board, code: u32) -> u32 {
    match board.bit(code) {
        Some(bit) => bit as u32,
        None => NO_PERMISSION,
    }
}

// What the call comes to that the line is.
fn call(board: Board, text: &[u8]) -> Option<Told> {
    let roster = board.roster;
    let number = words::number(text, 1)?;
    if is_line(text, b"hire", 2) {
        return Some(roster.hire(number));
    }
    if is_line(text, b"leave", 2) {
        return Some(roster.leave(number));
    }
    let permission = permission(board, words::number(text, 2)?);
    if is_line(text, b"grant", 3) {
        return Some(roster.grant(number, permission));
    }
    if is_line(text, b"revoke", 3) {
        return Some(roster.revoke(number, permission));
    }
    None
}

// A line is a call, or a question, which leaves the board as it is.
pub(crate) fn answer(rt: &(impl Files + Print), board: Board, text: &[u8]) -> Board {
    match call(board, text) {
        Some(told) => called(rt, board, told),
        None => board.heard(question(rt, board, text)),
    }
}

// ---- questions

fn question(rt: &(impl Files + Print), board: Board, text: &[u8]) -> bool {
    if is_line(text, b"who", 2)
        && let Some(code) = words::number(text, 1)
    {
        return who(rt, board, code);
    }
    if let Some(asked) = policy_of(text, b"ask")
        && let Some(away) = words::number(text, 2)
    {
        return policy(rt, board, text, Policy { away, ..asked }, Way::Skipping);
    }
    if let Some(asked) = policy_of(text, b"full")
        && let Some(away) = words::number(text, 2)
    {
        return policy(rt, board, text, Policy { away, ..asked }, Way::Full);
    }
    if let Some(asked) = policy_of(text, b"away") {
        return away(rt, board, text, asked);
    }
    if is_line(text, b"show", 1) {
        return show(rt, board);
    }
    if is_line(text, b"sheet", 1) {
        return books::sheet(rt, board);
    }
    if is_line(text, b"write", 2) {
        return books::write(rt, board, words::word(text, 1));
    }
    if is_line(text, b"help", 1) {
        return help(rt);
    }
    if words::has_words(text, 0) {
        return true;
    }
    not_understood(rt, text)
}

// The policy, of no task yet and nobody away, of a line that is this word with four behind it, of which the last two say how many crews and how many
// to a crew; a fifth may say the edition, which is the first where none is said.
fn policy_of(text: &[u8], word: &[u8]) -> Option<Policy> {
    let edition = if is_line(text, word, 5) {
        1
    } else if is_line(text, word, 6) {
        words::number(text, 5)?
    } else {
        return None;
    };
    Some(Policy {
        task: 0,
        away: 0,
        crews: words::number(text, 3)? as usize,
        size: words::number(text, 4)?,
        edition,
    })
}

// Who holds a permission, in the order of their places.
fn who(rt: &impl Print, board: Board, code: u32) -> bool {
    let Some(bit) = board.bit(code) else {
        return said::objection(rt, Objection::Permission);
    };
    said::text(rt, b"held by");
    said::people(rt, b' ', board.roster.staff, board.roster.holders[bit]);
    said::end(rt)
}

// Where the item stands in the set: somebody's row, or the bit of a permission.
fn index(board: Board, item: &[u8], items: Items) -> Result<usize, Unlisted>
    ensures { IfOk result (λ index. index < 64) }
{
    let number = words::number_of(item).ok_or(Unlisted::Not)?;
    let index = match items {
        Items::People => board.row(number),
        Items::Permissions => board.bit(number),
    };
    index.ok_or(Unlisted::NoSuch)
}

// The items of a list, with commas between them, as a set: of rows of the roster's table, or of bits; `-` is the empty list.
fn list(board: Board, word: &[u8], items: Items) -> Result<u64, Unlisted> {
    let mut set: u64 = 0;
    if word == b"-".as_slice() {
        return Ok(set);
    }
    for i in 0..word.len() {
        let Some(item) = words::item(word, i) else {
            break;
        };
        set |= 1u64 << index(board, item, items)?;
    }
    Ok(set)
}

// The permissions of a task; all that there are, for short.
fn task(board: Board, word: &[u8]) -> Result<u32, Unlisted> {
    if word == b"all".as_slice() {
        return Ok(board.permissions());
    }
    let set = list(board, word, Items::Permissions)?;
    u32::try_from(set).map_err(|_| Unlisted::NoSuch)
}

// Why a list is not taken: the objection is that of the roster where something in it is not there.
fn not_listed(rt: &impl Print, text: &[u8], why: Unlisted, objection: Objection) -> bool {
    match why {
        Unlisted::NoSuch => said::objection(rt, objection),
        Unlisted::Not => not_understood(rt, text),
    }
}

// A policy, by either search.
fn policy(rt: &impl Print, board: Board, text: &[u8], policy: Policy, way: Way) -> bool {
    match task(board, words::word(text, 1)) {
        Ok(task) => {
            let reply = live::ask(way, board.roster, Policy { task, ..policy }, ALLOWANCE);
            said::reply(rt, board.roster, reply)
        }
        Err(why) => not_listed(rt, text, why, Objection::Permission),
    }
}

// The crews that there are with these people away.
fn away(rt: &impl Print, board: Board, text: &[u8], policy: Policy) -> bool {
    match list(board, words::word(text, 1), Items::People) {
        Ok(absent) => without(rt, board, text, policy, absent),
        Err(why) => not_listed(rt, text, why, Objection::Nobody),
    }
}

fn without(rt: &impl Print, board: Board, text: &[u8], policy: Policy, absent: u64) -> bool {
    match task(board, words::word(text, 2)) {
        Ok(task) => {
            let policy = Policy { task, ..policy };
            let reply = live::ask_named(board.roster, policy, absent, ALLOWANCE);
            said::reply(rt, board.roster, reply)
        }
        Err(why) => not_listed(rt, text, why, Objection::Permission),
    }
}

// ---- the rest

// The permissions, and a line for everybody who is there.
fn show(rt: &impl Print, board: Board) -> bool {
    said::text(rt, b"permissions");
    said::codes(rt, board, board.permissions());
    let mut is_heard = said::end(rt);
    let roster = board.roster;
    for (place, number) in roster.staff.iter().enumerate() {
        if (roster.occupied >> place) & 1 == 1 {
            is_heard = person(rt, board, place, *number, roster.holdings[place]);
        }
    }
    is_heard
}

// Who is at a place, and holds what.
fn person(rt: &impl Print, board: Board, place: usize, number: u32, held: u32) -> bool {
    said::text(rt, b"place");
    said::number(rt, b' ', place as u64);
    said::text(rt, b",");
    said::number(rt, b' ', u64::from(number));
    said::text(rt, b" holds");
    said::codes(rt, board, held);
    said::end(rt)
}

// How a word that is known here goes on; for any other, which words there are.
fn words_behind(word: &[u8]) -> &'static [u8] {
    match word {
        b"hire" | b"leave" => b"a staff number goes with it, from 0 to 4294967295: hire 101\n",
        b"grant" | b"revoke" => b"a staff number and a permission go with it: grant 101 20\n",
        b"who" => b"a permission goes with it: who 20\n",
        b"ask" | b"full" =>
            b"a task and three numbers go with it, how many away, crews, to a crew, and then an edition or none: ask 10,20 1 2 2\n",
        b"away" =>
            b"people, a task and two numbers go with it, crews, to a crew, and then an edition or none: away 101,104 10,20 2 2\n",
        b"write" => b"the name of a new file goes with it, without blanks: write new.book\n",
        _ => b"say hire, leave, grant, revoke, who, ask, full, away, show, sheet, write, or help\n",
    }
}

fn not_understood(rt: &impl Print, text: &[u8]) -> bool {
    said::text(rt, b"not understood: ");
    said::text(rt, words_behind(words::word(text, 0)))
}

fn help(rt: &impl Print) -> bool {
    said::text(
        rt,
        b"hire 101               somebody comes, at the lowest free place
leave 101              and goes again
grant 101 20           holds permission 20 from now on
revoke 101 20          or does not
who 20                 who holds it
ask 10,20 1 2 2        the task 10,20: any 1 away, are there still 2 separate crews of at most 2?
full 10,20 1 2 2       the same, trying every absence
ask 10,20 1 2 2 2      the same by edition 2, where crews have 2 members at least; so full and away
away 101,104 10,20 2 2 with these away, are there 2 separate crews of at most 2?
show                   everybody, by place
sheet                  the book's policies, asked of the roster as it stands
write new.book         the roster as a book, into a new file
In a list, - is nobody or nothing; in a task, all is every permission.
",
    )
}
