// Histories of a live roster: lines of calls and questions, `LINE -> ANSWER`, put to one roster in their order. `roster` begins anew with an empty
// one. Calls answer `ok` and the place, or `refused:` and the number.
//     hire NUMBER       leave NUMBER       grant NUMBER PERMISSION       revoke NUMBER PERMISSION       holders PERMISSION
//     rpolicy skip|full P s d t EDITION 0 0 0 ALLOWANCE       rnamed P d t ABSENT ALLOWANCE
// `holders` answers the set of places; questions answer verdict, units, the eight crews, the sites, which are 0 here, and the blocker. Sets are
// masks. Lines that begin with `#`, and empty ones, are passed over.
use crate::books::{TEXT, text};
use crate::cases::{Tally, compared};
use crate::line::{Line, Masks};
use crate::listed;
use crate::words::{behind, byte_at, line_at, lines_from, narrow, next_word, numbers, word_at};
use live::Roster;
use std::io;
use std::rt::Files;

// What a call answers, and the roster that it leaves.
fn answered(roster: &mut Roster, told: live::Told) -> Line {
    *roster = told.roster;
    match told.outcome {
        Ok(place) => Line::of(format_args!("ok {place}")),
        Err(objection) => Line::of(format_args!("refused:{}", objection.number())),
    }
}

fn holders(roster: &Roster, permission: u64) -> Line {
    match roster.holders.get(permission as usize) {
        Some(holders) => Line::of(holders),
        None => Line::of("no such permission"),
    }
}

fn policy(roster: Roster, line: &[u8]) -> Line {
    let asked = listed::policy_at(line, 2);
    let [allowance] = numbers::<1>(line, 10);
    let reply = live::ask(
        listed::way_of(word_at(next_word(line))),
        roster,
        asked,
        narrow(allowance),
    );
    Line::of(Masks(reply))
}

// Of the first edition.
fn named(roster: Roster, line: &[u8]) -> Line {
    let [absent, allowance] = numbers::<2>(line, 4);
    let reply = live::ask_named(
        roster,
        listed::named_policy(line, 1),
        absent,
        narrow(allowance),
    );
    Line::of(Masks(reply))
}

// The line, put to the roster.
fn step(roster: &mut Roster, line: &[u8]) -> Line {
    let [first, second] = numbers::<2>(line, 1);
    let staff = narrow(first);
    let permission = narrow(second);
    match word_at(line) {
        "hire" => answered(roster, roster.hire(staff)),
        "leave" => answered(roster, roster.leave(staff)),
        "grant" => answered(roster, roster.grant(staff, permission)),
        "revoke" => answered(roster, roster.revoke(staff, permission)),
        "roster" => {
            *roster = Roster::empty();
            Line::of("ok")
        }
        "holders" => holders(roster, first),
        "rpolicy" => policy(*roster, line),
        "rnamed" => named(*roster, line),
        _ => Line::of("no such line"),
    }
}

// The lines of a file.
pub(crate) fn show_file(rt: &(impl Files + Print), name: &str, file: &str) -> io::Result<()> {
    let mut room = [0u8; TEXT];
    let mut roster = Roster::empty();
    let mut tally = Tally::none();
    for line in lines_from(text(rt, file, &mut room)) {
        let byte = byte_at(line);
        if byte != b'#' && byte != b'\n' {
            let came = step(&mut roster, line);
            let outcome = compared(came, behind(line, "->"));
            tally.add(line_at(line), outcome);
        }
    }
    tally.show(rt, name.as_bytes())
}
