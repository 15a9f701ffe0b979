// The questions that are asked, and the tables they are asked about.
ghost use Rattle.std.specs.Prelude.{◌<◌};

use crate::compare::{Counts, Kind};
use crate::filling::Rule;
use crate::known::{Known, Wanted};
use crate::persons::Staff;
use crate::plain::{CELLS, Duty, PERMISSIONS, ROWS, digits};
use crate::question::{AMPLE, Asked, Asking, Question};
use crate::{known, persons, reason};
use accounts::Accounts;
use questions::Way;
use roster::Policy;

// As many numbers as `try_small` takes apart: 512 holdings, 4 row counts, 7 tasks, 4 values of d, 4 of t and 2 editions.
const SMALL: usize = 458752;

// As many tables are drawn, about half of them for the second edition.
const DRAWN: usize = 12000;

// Where a permission stands in a row's holdings: in its own place, or spread over the whole width.
pub(crate) fn bit_of(spread: bool, p: usize) -> u32 {
    if p >= PERMISSIONS {
        return 0;
    }
    if spread {
        1u32 << (p * 5 + 3)
    } else {
        1u32 << p
    }
}

// The permissions for which this is true, as the libraries have them. A `filter` and a `fold` were tried: they ask more of `is_in`, of every caller.
fn permissions<F: Fn(usize) -> bool + Drop>(spread: bool, is_in: F) -> u32
    requires { F.IsAlwaysCallable is_in }
{
    let mut permissions = 0;
    for p in 0..PERMISSIONS {
        if is_in(p) {
            permissions |= bit_of(spread, p);
        }
    }
    permissions
}

// The row's holdings as the libraries have them.
fn holdings_of(duty: &Duty, spread: bool, row: usize) -> u32 {
    permissions(spread, |p| duty.holds(row, p))
}

fn task_of(duty: &Duty, spread: bool) -> u32 {
    permissions(spread, |p| duty.wants(p))
}

// The person numbers of the owners: they differ, and are in no order.
const NUMBERS: [u32; ROWS] = [7, 4, 1, 6, 0, 3];

fn number_of(owner: usize) -> u32 {
    NUMBERS.get(owner).copied().unwrap_or(3)
}

// The accounts as the libraries have them. Holdings outside the task and past the row count play no part: noise stands there, in rows of the first
// row's person.
fn accounts_of(staff: &Staff, spread: bool, noise: u32) -> Accounts {
    let duty = &staff.accounts;
    let unasked = noise & !task_of(duty, spread);
    let mut holdings = [noise; Policy::ROWS];
    let mut persons = [number_of(staff.owner[0]); Policy::ROWS];
    // two arrays are written at a row: zipped, they read no plainer
    for (row, owner) in staff.owner.iter().enumerate() {
        if row < duty.rows {
            holdings[row] = holdings_of(duty, spread, row) | unasked;
            persons[row] = number_of(*owner);
        }
    }
    Accounts {
        holdings,
        persons,
        rows: duty.rows,
    }
}

// A small number as the libraries have it.
pub(crate) fn narrow(n: usize) -> u32 {
    n.min(64) as u32
}

pub(crate) fn asked_of(staff: &Staff, spread: bool, noise: u32) -> Asked {
    let duty = &staff.accounts;
    Asked {
        spread,
        accounts: accounts_of(staff, spread, noise),
        task: task_of(duty, spread),
        crews: duty.crews,
        size: narrow(duty.size),
        edition: narrow(duty.edition),
    }
}

// The question within an allowance.
fn try_within(
    counts: &mut Counts,
    kind: Kind,
    question: &Question,
    wanted: &Wanted,
    allowance: u32,
) {
    let narrowed = question.within(allowance);
    counts.whole(kind, &narrowed, wanted, &narrowed.came());
}

// One policy question of one search: with an ample allowance, with the need, and with one unit less.
fn try_search(counts: &mut Counts, question: &Question, wanted: &Wanted) {
    let need = wanted.units;
    counts.policy(question, wanted, &question.came());
    try_within(counts, Kind::Allowance, question, wanted, need);
    try_within(
        counts,
        Kind::Allowance,
        question,
        wanted,
        need.wrapping_sub(1),
    );
}

// One policy question, by both searches.
fn try_policy(counts: &mut Counts, known: &Known, asked: &Asked, away: usize) {
    let s = narrow(away);
    let skipping = Question::policy(asked, Asking::Skipping, s);
    let full = Question::policy(asked, Asking::Full, s);
    let both = Question::policy(asked, Asking::Both, s);
    try_search(counts, &skipping, &known.policy_reply(Way::Skipping, away));
    try_search(counts, &full, &known.policy_reply(Way::Full, away));
    counts.alike(BOTH, &both, &full.came(), &skipping.came());
}

// The question for an absence, or why it blocks: with an ample allowance, with the need, and with one unit less if it needs any.
fn try_whole(counts: &mut Counts, kinds: (Kind, Kind), question: &Question, wanted: &Wanted) {
    let (ample, allowed) = kinds;
    counts.whole(ample, question, wanted, &question.came());
    try_within(counts, allowed, question, wanted, wanted.units);
    if let Some(less) = wanted.units.checked_sub(1) {
        try_within(counts, allowed, question, wanted, less);
    }
}

// What the search that skips replies, held against the full search; and the reply for an absence, held against the rule before.
pub const BOTH: (Kind, Kind) = (Kind::Both, Kind::Need);

pub const BEFORE: (Kind, Kind) = (Kind::List, Kind::Placements);

const NAMED: (Kind, Kind) = (Kind::Named, Kind::Allowance);

const WHY: (Kind, Kind) = (Kind::Reason, Kind::ReasonAllowance);

// The absence with this number: filling held against trying everything, the question for it, its reply held against the rule before, and why
// it blocks.
fn try_absence(counts: &mut Counts, known: &Known, asked: &Asked, number: usize) {
    let absent = known::mask_of(&known::set_of(number));
    let wanted = known.named_reply(number, Rule::Ordered);
    let filling = Question::named(asked, Asking::Filling, absent);
    counts.filling(&filling, &wanted, known.fact(number).found);
    let named = Question::named(asked, Asking::Named, absent);
    try_whole(counts, NAMED, &named, &wanted);
    let before = Question::named(asked, Asking::Before, absent);
    counts.alike(
        BEFORE,
        &before,
        &known.named_reply(number, Rule::Before),
        &named.came(),
    );
    let why = Question::named(asked, Asking::Why, absent);
    try_whole(
        counts,
        WHY,
        &why,
        &reason::wanted(known, number, asked.spread),
    );
}

// Each absence, by its number: a set of rows is its binary digits.
fn try_absences(counts: &mut Counts, known: &Known, asked: &Asked) {
    for number in 0..known.sets {
        try_absence(counts, known, asked, number);
    }
}

// An absence with the bit just past the persons, which may be a row's: it is refused, and so is explaining it.
fn try_past(counts: &mut Counts, known: &Known, asked: &Asked) {
    let past = 1u64 << known.duty.rows.min(ROWS);
    let wanted = Wanted::refused();
    let named = Question::named(asked, Asking::Named, past);
    counts.whole(Kind::Named, &named, &wanted, &named.came());
    let why = Question::named(asked, Asking::Why, past);
    counts.whole(Kind::Reason, &why, &wanted, &why.came());
}

// Cells of the three permissions of up to three rows from a number below 512: three binary digits a row.
fn small_cells(number: usize) -> [bool; CELLS] {
    let mut cells = [false; CELLS];
    for (i, held) in digits::<9>(number as u64).iter().enumerate() {
        cells[i / 3 * PERMISSIONS + i % 3] = *held;
    }
    cells
}

// The task from a number: its binary digits.
pub(crate) fn small_task(number: usize) -> [bool; PERMISSIONS] {
    digits(number as u64)
}

// One duty of the small ones, with each s: the number's digits, to changing bases, say the holdings, the row count, the task, d, t and
// the edition. So many rows make fewer holdings, three binary digits for each.
fn try_small(counts: &mut Counts, number: usize) {
    let rows = number / 512 % 4;
    let holdings = number % 512;
    if holdings >> (rows * 3) != 0 {
        return;
    }
    let duty = Duty {
        rows,
        cells: small_cells(holdings),
        task: small_task(number / 2048 % 7 + 1),
        crews: number / 14336 % 4 + 1,
        size: number / 57344 % 4 + 1,
        edition: number / 229376 % 2 + 1,
    };
    let asked = asked_of(&persons::own(duty), false, AMPLE);
    let known = known::known_of(duty);
    try_absences(counts, &known, &asked);
    for away in 0..5 {
        try_policy(counts, &known, &asked, away);
    }
}

// All tables of up to 3 rows and 3 permissions, with every task, d and t from 1 to 4, s from 0 to 4, and both editions: a table is made of its number,
// which is no index.
pub(crate) fn try_all_small(counts: &mut Counts) {
    for number in 0..SMALL {
        counts.tallies.at(number);
        try_small(counts, number);
    }
}

// The next of a fixed row of numbers that look random (xorshift). `drawn` has the same: a crate for three lines is no plainer.
pub(crate) fn next(state: u64) -> u64 {
    let a = state ^ (state << 13);
    let b = a ^ (a >> 7);
    b ^ (b << 17)
}

// The number's last digit to this base, which is at most 64.
pub(crate) fn digit(number: u64, base: u64) -> usize
    ensures { result < 64 }
{
    if base == 0 {
        return 0;
    }
    let last = (number % base) as usize;
    if last < 64 { last } else { 0 }
}

// Whose each row is, from a number: its digits to base 6.
fn drawn_owners(number: u64) -> [usize; ROWS] {
    let mut owner = [0; ROWS];
    let mut left = number;
    for drawn in owner.iter_mut() {
        *drawn = digit(left, 6);
        left /= 6;
    }
    owner
}

// In every other table rows may share an owner.
fn staff_of(accounts: Duty, number: u64) -> Staff {
    if number % 2 == 0 {
        return persons::own(accounts);
    }
    Staff {
        accounts,
        owner: drawn_owners(number / 2),
    }
}

// One table of 4 to 6 rows with one policy, from four drawn numbers, of which the first is given. A row holds a permission with one chance in two,
// in most tables with three in four: where little is held, nearly everything blocks.
fn try_drawn(counts: &mut Counts, a: u64) {
    let b = next(a);
    let c = next(b);
    let d = next(c);
    let size = digit(c / 64, 5);
    let accounts = Duty {
        rows: 4 + digit(c / 1024, 3),
        cells: digits(if c % 4 == 0 { a } else { a | b }),
        task: small_task(1 + digit(d, 63)),
        crews: 1 + digit(d / 64, 4),
        size: if size == 0 { 64 } else { size },
        edition: 1 + digit(d / 8192, 2),
    };
    let staff = staff_of(accounts, c / 1048576);
    let asked = asked_of(&staff, true, (d / 65536 % 4294967296) as u32);
    let known = known::known_of(staff.merged());
    try_past(counts, &known, &asked);
    try_absences(counts, &known, &asked);
    try_policy(counts, &known, &asked, digit(d / 1024, 5));
}

// The number that the next table is drawn from.
fn next_drawn(a: u64) -> u64 {
    next(next(next(next(a))))
}

pub const FIRST_DRAWN: u64 = 88172645463325252;

// Tables of 4 to 6 rows, drawn by a fixed row of numbers. They are numbered behind the small ones.
pub(crate) fn try_all_drawn(counts: &mut Counts) {
    let mut a = FIRST_DRAWN;
    for i in 0..DRAWN {
        counts.tallies.at(SMALL + i);
        try_drawn(counts, a);
        a = next_drawn(a);
    }
}

// One table by its number.
pub(crate) fn try_table(counts: &mut Counts, number: usize) {
    match number.checked_sub(SMALL) {
        None => try_small(counts, number),
        Some(index) => try_drawn(counts, (0..index).fold(FIRST_DRAWN, |a, _| next_drawn(a))),
    }
}
