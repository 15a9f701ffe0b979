// The sheet: its whole text as a function of a book's bytes, into a buffer that the caller lends. What stands there is said by `sheet_of` in
// specs/Sheet.antt, which is made of the reader's reply and of the replies to the policies: so the "yes" that is printed is the one proved.
#![tactic(auto)]

mod field;

ghost use Rattle.std.specs.Prelude.{◌≡◌, length};
ghost use Rattle.roster.specs.Limits.{crew_limit};
ghost use Rattle.questions.specs.Asked.{PolicyAskedFor};
ghost use Rattle.book.specs.Parts.{accounts_in, policy_count_of, policy_at};
ghost use Rattle.text.specs.Text.{Appended};
ghost use Rattle.lines.specs.Lines.{verdict_word, line_of, bad_line};
ghost use Rattle.lines.specs.Sheet.{allowance, way, answer_to, numbers_in, line_by, lines_from, longest, enough, Promised};

use accounts::Accounts;
use questions::Way;
use roster::{Policy, Reply, Verdict};

// No sheet is longer: 32 lines of at most 726 bytes each.
pub const LONGEST: usize = 23232;
// So many bytes of an input decide its sheet: one more than the longest book has.
pub const ENOUGH: usize = 1093;
// The units that each policy may take.
pub const ALLOWANCE: u32 = 1000000;

// The buffer is shorter than a sheet, or whatever was asked for, can be.
#[derive(Clone, Copy, Debug, PartialEq, Eq)]
pub struct TooShort;

// A verdict's word; nothing for one that has none.
fn verdict_word(out: &mut [u8], at: usize, verdict: Verdict) -> usize
    ensures { Appended (verdict_word verdict) out.old at out.new result }
{
    match verdict {
        Verdict::Yes => text::word(out, at, b"yes"),
        Verdict::No => text::word(out, at, b"no"),
        Verdict::Undecided => text::word(out, at, b"undecided"),
        _ => at,
    }
}

// The line of a policy's reply.
fn line(
    out: &mut [u8],
    at: usize,
    numbers: &[u32; Policy::ROWS],
    index: usize,
    reply: Reply,
) -> usize
    requires { length reply.crews ≡ crew_limit }
    ensures { Appended (line_of numbers.now index reply) out.old at out.new result }
{
    let counted = text::decimal(out, at, index as u64);
    let spaced = text::put(out, counted, b' ');
    let judged = verdict_word(out, spaced, reply.verdict);
    let spent = text::number(out, judged, b' ', u64::from(reply.units));
    let named = field::sets_field(out, spent, numbers, reply);
    text::put(out, named, b'\n')
}

// The line of a refused book, at the front.
pub fn bad_line(out: &mut [u8], fault: u32, place: usize) -> usize
    ensures { Appended (bad_line fault place) out.old 0 out.new result }
{
    let called = text::word(out, 0, b"bad");
    let numbered = text::number(out, called, b' ', u64::from(fault));
    let placed = text::number(out, numbered, b' ', place as u64);
    text::put(out, placed, b'\n')
}

// The reply to a policy, by the search that skips and with the whole allowance.
fn reply_of(accounts: Accounts, policy: Policy) -> Reply
    ensures { PolicyAskedFor way accounts policy allowance result }
{
    questions::ask(Way::Skipping, accounts, policy, ALLOWANCE)
}

// A policy is asked, and the line of its reply is written.
fn asked(
    out: &mut [u8],
    at: usize,
    numbers: &[u32; Policy::ROWS],
    index: usize,
    accounts: Accounts,
    policy: Policy,
) -> usize
    ensures { Appended (line_of numbers.now index (answer_to accounts policy)) out.old at out.new result }
{
    let reply = reply_of(accounts, policy);
    line(out, at, numbers, index, reply)
}

// The line of the book's policy with this index.
fn policy_line(
    book: &[u8],
    out: &mut [u8],
    at: usize,
    numbers: &[u32; Policy::ROWS],
    accounts: Accounts,
    index: usize,
) -> usize
    requires { (numbers.now ≡ numbers_in book.now) × (accounts ≡ accounts_in book.now) }
    ensures { Appended (line_by book.now index (policy_at book.now index)) out.old at out.new result }
{
    match book::policy_at(book, index) {
        Some(policy) => asked(out, at, numbers, index, accounts, policy),
        None => at,
    }
}

// The lines of all policies in book order, from the front of the buffer on.
fn all_lines(book: &[u8], out: &mut [u8]) -> usize
    ensures { Appended (lines_from book.now 0 (policy_count_of book.now)) out.old 0 out.new result }
{
    let accounts = book::accounts_of(book);
    let people = accounts::merged(accounts);
    let numbers = people.numbers;
    let count = book::policy_count(book);
    let mut at = 0;
    for index in 0..count {
        at = policy_line(book, out, at, &numbers, accounts, index);
    }
    at
}

// The sheet of a book at the front of a buffer that is long enough for any.
pub fn sheet(book: &[u8], out: &mut [u8]) -> Result<usize, TooShort>
    ensures sheet { Promised book.now out.old out.new result }
    ensures kept { book.exit.now ≡ book.entry.now }
    ensures limits { (LONGEST ≡ longest) × (ENOUGH ≡ enough) × (ALLOWANCE ≡ allowance) }
{
    if out.len() < LONGEST {
        return Err(TooShort);
    }
    match book::read(book) {
        Err(refused) => Ok(bad_line(out, refused.fault.number(), refused.place)),
        Ok(_) => Ok(all_lines(book, out)),
    }
}
