// Values drawn by a fixed row of numbers: of the three forms, with few entries and with as many as a book can have.
use book::{Form, PERMISSIONS, POLICIES, Row};
use roster::Policy;
use values::Values;

pub const FIRST: u64 = 88172645463325252;

// The next of a fixed row of numbers that look random (xorshift). `trial` has the same: a crate for three lines is no plainer.
pub(crate) fn next(state: u64) -> u64 {
    let a = state ^ (state << 13);
    let b = a ^ (a >> 7);
    b ^ (b << 17)
}

// A count below 32; every fourth is the most that there can be.
fn count(number: u64, most: usize) -> usize {
    if number % 4 == 0 {
        return most;
    }
    (number / 4 % 32) as usize
}

fn form(number: u64) -> Form {
    match number % 3 {
        0 => Form::Old,
        1 => Form::Persons,
        _ => Form::Editions,
    }
}

// A set of the permissions that are listed.
fn set(number: u64, listed: usize) -> u32 {
    let drawn = (number % 4294967296) as u32;
    if listed == 0 {
        return 0;
    }
    if listed >= PERMISSIONS {
        return drawn;
    }
    drawn >> (PERMISSIONS - listed)
}

// Ascending codes, up to 2,000 apart.
fn codes(seed: u64) -> [u16; PERMISSIONS] {
    let mut codes = [0u16; PERMISSIONS];
    let mut state = seed;
    let mut code = seed % 1500;
    for place in &mut codes {
        *place = (code % 65536) as u16;
        state = next(state);
        code = code.wrapping_add(1 + state % 2000);
    }
    codes
}

// How far a staff number is from the one before: in every other book so far that 64 of them take up nearly all numbers.
fn step(seed: u64, number: u64) -> u64 {
    if seed % 2 == 0 {
        return 1 + number % 3;
    }
    1 + number % 67108863
}

// A person number: in every other book one of few, so that some have several accounts.
fn person(seed: u64, number: u64) -> u32 {
    if seed % 2 == 0 {
        return (number % 20) as u32;
    }
    (number % 4294967296) as u32
}

// Rows whose staff numbers ascend.
fn rows(seed: u64, listed: usize) -> [Row; Policy::ROWS] {
    let nobody = Row {
        staff: 0,
        person: 0,
        holdings: 0,
    };
    let mut rows = [nobody; Policy::ROWS];
    let mut state = seed;
    let mut staff = seed / 2 % 3;
    for row in &mut rows {
        let held = next(state);
        state = next(held);
        *row = Row {
            staff: (staff % 4294967296) as u32,
            person: person(seed, state),
            holdings: set(held, listed),
        };
        staff = staff.wrapping_add(step(seed, state));
    }
    rows
}

// A policy that asks for something.
fn policy(number: u64, listed: usize) -> Policy {
    let task = set(number, listed);
    let other = next(number);
    Policy {
        task: if task == 0 { 1 } else { task },
        away: (other % 65) as u32,
        crews: 1 + (other / 128 % 8) as usize,
        size: 1 + (other / 1024 % 64) as u32,
        edition: 1 + (other / 65536 % 2) as u32,
    }
}

fn policies(seed: u64, listed: usize) -> [Policy; POLICIES] {
    let mut policies = [policy(0, listed); POLICIES];
    let mut state = seed;
    for place in &mut policies {
        *place = policy(state, listed);
        state = next(next(state));
    }
    policies
}

// The values that are drawn from a number.
pub(crate) fn values(seed: u64) -> Values {
    let counts = next(seed);
    let drawn = count(counts, PERMISSIONS);
    let listed = if drawn == 0 { 1 } else { drawn };
    Values {
        form: form(counts / 1048576),
        codes: codes(next(counts)),
        code_count: listed,
        rows: rows(next(next(counts)), listed),
        row_count: count(counts / 256, Policy::ROWS),
        policies: policies(next(next(next(counts))), listed),
        policy_count: count(counts / 65536, POLICIES),
    }
}
