// Histories of a live roster, drawn by a fixed row of numbers and put to the library and to a plain list. After each call its answer and the whole
// roster are compared; where few are there, now and then a policy by both searches and a named absence too, whose replies have to be those of the
// table of whoever is there, in the order of their places.
use crate::compare::{Tallies, Tally, show};
use crate::family::narrow;
use crate::filling::Rule;
use crate::known::Wanted;
use crate::listed::{Call, Listed, Place};
use crate::plain::{Duty, PERMISSIONS, ROWS};
use crate::question::AMPLE;
use crate::{family, known};
use live::{Objection, Roster, Told, Way};
use roster::{Policy, Reply};
use std::{fmt, io};

// The kinds of comparison.
#[derive(Clone, Copy)]
enum Kind {
    Answers,
    Rosters,
    Policies,
    Absences,
}

const KINDS: [Kind; 4] = [Kind::Answers, Kind::Rosters, Kind::Policies, Kind::Absences];

impl fmt::Display for Kind {
    fn fmt<W: fmt::Write>(&self, f: &mut fmt::Formatter<W>) -> fmt::Result {
        f.write_str(match self {
            Kind::Answers => "answers of a live roster",
            Kind::Rosters => "holdings and sets of a live roster",
            Kind::Policies => "policies asked of a live roster",
            Kind::Absences => "named absences asked of a live roster",
        })
    }
}

// As many calls in all, and in one history: then the roster is empty again.
const CALLS: usize = 12000;

const HISTORY: usize = 1500;

// The library's roster and the plain list, which have had the same calls, and the comparisons so far, each by the number of the call.
#[derive(Clone, Copy)]
struct Pair {
    roster: Roster,
    list: Listed,
    tallies: Tallies<4>,
}

// What is asked of a pair: the task, how many crews, how many to each, how many away, the edition, and an absence by its number.
#[derive(Clone, Copy)]
struct Asked {
    task: usize,
    crews: usize,
    size: usize,
    away: usize,
    edition: usize,
    absent: usize,
}

fn told(roster: Roster, call: Call) -> Told {
    match call {
        Call::Hire(number) => roster.hire(number),
        Call::Leave(number) => roster.leave(number),
        Call::Grant(number, permission) => roster.grant(number, permission),
        Call::Revoke(number, permission) => roster.revoke(number, permission),
    }
}

// The place, or the number of the refusal.
fn answer_of(outcome: Result<usize, Objection>) -> Result<usize, u32> {
    outcome.map_err(|objection| objection.number())
}

// Whether the roster has at this place what the list has: whether somebody is there, who, and each permission, in the holdings and in the sets.
fn same_place(roster: &Roster, at: usize, place: &Place) -> bool {
    if at >= Policy::ROWS {
        return false;
    }
    let held = roster.holdings[at];
    (roster.occupied >> at) & 1 == u64::from(place.is_taken())
        && roster.staff[at] == place.number()
        && roster.holders.iter().enumerate().all(|(p, holders)| {
            let right = u64::from(place.holds(p));
            u64::from(held).unbounded_shr(p as u32) & 1 == right
                && holders.unbounded_shr(at as u32) & 1 == right
        })
}

fn same_roster(roster: &Roster, list: &Listed) -> bool {
    list.places()
        .iter()
        .enumerate()
        .all(|(at, place)| same_place(roster, at, place))
}

// Who is there holds what, in the order of their places.
fn duty_of(list: &Listed, asked: Asked) -> Duty {
    Duty {
        rows: list.count(),
        cells: std::array::from_fn(|i| list.row_holds(i / PERMISSIONS, i % PERMISSIONS)),
        task: family::small_task(asked.task),
        crews: asked.crews,
        size: asked.size,
        edition: asked.edition,
    }
}

fn policy_of(asked: Asked) -> Policy {
    Policy {
        task: narrow(asked.task),
        away: narrow(asked.away),
        crews: asked.crews,
        size: narrow(asked.size),
        edition: narrow(asked.edition),
    }
}

impl Pair {
    fn begun(tallies: Tallies<4>) -> Pair {
        Pair {
            roster: Roster::empty(),
            list: Listed::nobody(),
            tallies,
        }
    }

    // One comparison more of this kind.
    fn note(&mut self, kind: Kind, same: bool) {
        self.tallies.note(kind as usize, same);
    }

    fn note_reply(&mut self, kind: Kind, reply: Reply, wanted: Wanted) {
        self.note(kind, wanted == reply.into());
    }

    // One call, and the comparisons that it makes.
    fn call(&mut self, call: Call) {
        let after = told(self.roster, call);
        let answer = self.list.answer(call);
        self.roster = after.roster;
        let same = same_roster(&self.roster, &self.list);
        self.note(Kind::Answers, answer_of(after.outcome) == answer);
        self.note(Kind::Rosters, same);
    }

    // The questions, where no more are there than the rules can be tried on here.
    fn ask(&mut self, asked: Asked) {
        let duty = duty_of(&self.list, asked);
        if duty.rows > ROWS {
            return;
        }
        let known = known::known_of(duty);
        let number = if asked.absent < known.sets {
            asked.absent
        } else {
            0
        };
        let policy = policy_of(asked);
        let roster = self.roster;
        let skipping = live::ask(Way::Skipping, roster, policy, AMPLE);
        let full = live::ask(Way::Full, roster, policy, AMPLE);
        let absent = known::mask_of(&known::set_of(number));
        let named = live::ask_named(roster, policy, absent, AMPLE);
        self.note_reply(
            Kind::Policies,
            skipping,
            known.policy_reply(Way::Skipping, asked.away),
        );
        self.note_reply(
            Kind::Policies,
            full,
            known.policy_reply(Way::Full, asked.away),
        );
        self.note_reply(
            Kind::Absences,
            named,
            known.named_reply(number, Rule::Ordered),
        );
    }
}

// In every other history many are about, so that all places get taken; in the others few, so that questions can be asked.
fn drawn_call(number: u64, is_crowd: bool) -> Call {
    let (staff, permissions) = if is_crowd { (100, 34) } else { (8, 8) };
    let staff = (number / 8 % staff) as u32;
    let permission = narrow(family::digit(number / 1024, permissions));
    match number % 8 {
        1 => Call::Leave(staff),
        2 | 6 | 7 => Call::Grant(staff, permission),
        3 => Call::Revoke(staff, permission),
        _ => Call::Hire(staff),
    }
}

fn drawn_question(number: u64) -> Asked {
    let size = family::digit(number / 1024, 5);
    Asked {
        task: 1 + family::digit(number, 63),
        crews: 1 + family::digit(number / 64, 3),
        size: if size == 0 { 64 } else { size },
        away: family::digit(number / 8192, 4),
        edition: 1 + family::digit(number / 4194304, 2),
        absent: family::digit(number / 65536, 64),
    }
}

// All calls, one after the other. Their number says when a history ends and when to ask; it is no index.
fn tried() -> Tallies<4> {
    let mut pair = Pair::begun(Tallies::none());
    let mut drawn = family::FIRST_DRAWN;
    for i in 0..CALLS {
        if i % HISTORY == 0 {
            pair = Pair::begun(pair.tallies);
        }
        let is_crowd = i / HISTORY % 2 == 0;
        pair.tallies.at(i);
        pair.call(drawn_call(drawn, is_crowd));
        drawn = family::next(drawn);
        if !is_crowd && i % 8 == 0 {
            pair.ask(drawn_question(drawn));
        }
        drawn = family::next(drawn);
    }
    pair.tallies
}

// A roster that had two calls more than the list: every comparison has to differ.
fn planted() -> Tallies<4> {
    let hired = Roster::empty().hire(7);
    let granted = hired.roster.grant(7, 0);
    let mut pair = Pair {
        roster: granted.roster,
        ..Pair::begun(Tallies::none())
    };
    let before = pair;
    pair.call(Call::Hire(8));
    let mut asked = Pair {
        tallies: pair.tallies,
        ..before
    };
    asked.ask(Asked {
        task: 1,
        crews: 1,
        size: 1,
        away: 0,
        edition: 1,
        absent: 0,
    });
    asked.tallies
}

// The number of the call that differed first, behind what was compared.
fn show_kind(rt: &impl Print, name: &impl fmt::Display, tally: Tally) -> io::Result<()> {
    show(rt, name, tally)?;
    if let Some(call) = tally.first {
        println!(rt; "  first: call {call}")?;
    }
    Ok(())
}

fn show_tallies(rt: &impl Print, before: &str, tallies: Tallies<4>) -> io::Result<()> {
    for kind in KINDS {
        let name = format_args!("{before}{kind}");
        show_kind(rt, &name, tallies.of(kind as usize))?;
    }
    Ok(())
}

pub(crate) fn show_all(rt: &impl Print) -> io::Result<()> {
    show_tallies(rt, "", tried())?;
    show_tallies(rt, "planted ", planted())
}
