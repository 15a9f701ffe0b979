// The program: a roster book from standard input, and for each of its policies a line in words: of one that does not hold why, and what would help.
// Which reason is given is the library's reply for the blocker that the sheet names, which is proved; the words are this program's and are not. If
// the input cannot be read or the words cannot be written, a line on standard error says so.
#![tactic(auto)]

mod words;

use accounts::Accounts;
use questions::Way;
use reasons::Explanation;
use roster::{Policy, Table, Verdict};

// No text is longer: 32 lines, each with 64 names of at most ten digits and five bytes between two, and fewer than 200 bytes besides.
const ROOM: usize = 38400;

// The code of a permission; 0 where the book does not list it.
fn code_of(book: &[u8], permission: u32) -> u64 {
    let code = book::code_at(book, book::starts_in(book), permission as usize);
    u64::from(code.unwrap_or(0))
}

// How many of the persons who are present hold the permission.
fn holders(table: Table, permission: u32, absent: u64) -> u64 {
    let mut left = absent;
    let mut count: u64 = 0;
    for &holdings in table.holdings.iter().take(table.rows) {
        if left % 2 == 0 && holds(holdings, permission) {
            count = count.saturating_add(1);
        }
        left /= 2;
    }
    count
}

fn holds(holdings: u32, permission: u32) -> bool {
    permission < 32 && (holdings >> permission) & 1 == 1
}

// Why the policy does not hold, as the library explains its blocker.
fn reason(
    out: &mut [u8],
    at: usize,
    book: &[u8],
    accounts: Accounts,
    policy: Policy,
    blocker: u64,
) -> usize {
    let people = accounts::merged(accounts);
    let table = people.table;
    let numbers = people.numbers;
    let explained = reasons::why(accounts, policy, blocker, lines::ALLOWANCE);
    let told = words::away(out, at, &numbers, blocker);
    match explained.why {
        Explanation::Scarce(permission) => words::scarce(
            out,
            told,
            holders(table, permission, blocker),
            code_of(book, permission),
            policy.crews as u64,
        ),
        Explanation::NoCrew => words::no_crew(out, told, policy),
        Explanation::Overlap => words::overlap(out, told, policy),
        _ => words::unexplained(out, told),
    }
}

// What is said of a policy behind its index.
fn verdict(out: &mut [u8], at: usize, book: &[u8], accounts: Accounts, policy: Policy) -> usize {
    let reply = questions::ask(Way::Skipping, accounts, policy, lines::ALLOWANCE);
    match reply.verdict {
        Verdict::No => {
            let told = text::word(out, at, b" no: ");
            reason(out, told, book, accounts, policy, reply.blocker)
        }
        Verdict::Yes => text::word(out, at, b" yes: nothing to explain"),
        _ => text::word(
            out,
            at,
            b" undecided: neither yes nor no, so nothing can be explained",
        ),
    }
}

// The line of the book's policy with this index.
fn line(out: &mut [u8], at: usize, book: &[u8], accounts: Accounts, index: usize) -> usize {
    match book::policy_at(book, index) {
        Some(policy) => {
            let counted = text::decimal(out, at, index as u64);
            let told = verdict(out, counted, book, accounts, policy);
            text::put(out, told, b'\n')
        }
        None => at,
    }
}

// The lines of all policies in book order.
fn all_lines(book: &[u8], out: &mut [u8]) -> usize {
    let accounts = book::accounts_of(book);
    if book::policy_count(book) == 0 {
        return text::word(out, 0, b"no policies: nothing to explain\n");
    }
    let mut at = 0;
    for index in 0..book::POLICIES {
        at = line(out, at, book, accounts, index);
    }
    at
}

// What is said of a book, at the front of the buffer: of a refused one the line that its sheet has.
fn said(book: &[u8], out: &mut [u8]) -> usize {
    match book::read(book) {
        Ok(_) => all_lines(book, out),
        Err(_) => lines::sheet(book, out).unwrap_or(0),
    }
}

fn main(rt: HostRuntime) {
    let mut book = [0u8; lines::ENOUGH];
    let Ok(size) = input::read_all(&mut rt.stdin(), &mut book) else {
        let _ = rt.eprintln("why: standard input cannot be read");
        return;
    };
    let mut out = [0u8; ROOM];
    let length = said(&book[..size], &mut out);
    if rt.write_all(&out[..length.min(ROOM)]).is_err() {
        let _ = rt.eprintln("why: the output cannot be written");
    }
}
