// What is known of every set of rows as an absence, and from that what a reply has to be. Blocking is known by trying everything; need and
// crews by the plain rules of filling and of the order of absences.
use crate::filling::{Filled, Placed, Rule};
use crate::order::Ranks;
use crate::plain::{Duty, ROWS, digits};
use crate::{brute, order};
use questions::Way;
use std::fmt;

// Six rows have 64 sets. A set's number has the digit 1, in base 2, for each of its rows.
pub const SETS: usize = 64;

// Crews of a reply.
pub const LISTED: usize = 8;

// Of a set as an absence: its place in the order of absences, whether it blocks, whether filling found a list and after how many placements, whether it
// is worth trying.
#[derive(Clone, Copy)]
pub struct Fact {
    pub absence: Ranks,
    pub blocks: bool,
    pub found: bool,
    pub units: u32,
    pub worth: bool,
}

// What is taken for the facts of a set that is not there.
const NOTHING: Fact = Fact {
    absence: order::NOBODY,
    blocks: false,
    found: false,
    units: 0,
    worth: false,
};

// A duty, how many sets its rows have, the facts by the sets' numbers, and the same in the order of absences; past the sets stands NOTHING, so that the
// arrays are read whole. A `Vec` is no plainer: it would let each of the tables fail for want of memory.
#[derive(Clone, Copy)]
pub struct Known {
    pub duty: Duty,
    pub sets: usize,
    pub facts: [Fact; SETS],
    pub in_order: [Fact; SETS],
}

// What is answered: the verdict of a reply, or of an explanation its reason.
#[derive(Clone, Copy, PartialEq, Eq)]
pub enum Answer {
    Yes,
    No,
    Undecided,
    Crews,
    None,
    Refused,
    Scarce,
    NoCrew,
    Overlap,
    NothingToExplain,
}

pub const ANSWERS: [Answer; 10] = [
    Answer::Yes,
    Answer::No,
    Answer::Undecided,
    Answer::Crews,
    Answer::None,
    Answer::Refused,
    Answer::Scarce,
    Answer::NoCrew,
    Answer::Overlap,
    Answer::NothingToExplain,
];

impl fmt::Display for Answer {
    fn fmt<W: fmt::Write>(&self, f: &mut fmt::Formatter<W>) -> fmt::Result {
        f.write_str(match self {
            Answer::Yes => "yes",
            Answer::No => "no",
            Answer::Undecided => "undecided",
            Answer::Crews => "crews",
            Answer::None => "none",
            Answer::Refused => "refused",
            Answer::Scarce => "reason 1",
            Answer::NoCrew => "reason 2",
            Answer::Overlap => "reason 3",
            Answer::NothingToExplain => "nothing to explain",
        })
    }
}

// What a reply has to be. An explanation's blocker is the permission that is scarce, as a set.
#[derive(Clone, Copy, PartialEq, Eq)]
pub struct Wanted {
    pub answer: Answer,
    pub crews: [u64; LISTED],
    pub blocker: u64,
    pub units: u32,
}

// The set with this number.
pub(crate) fn set_of(number: usize) -> [bool; ROWS] {
    digits(number as u64)
}

// The row as a set of the libraries, which has bit i for row i.
fn one(row: usize) -> u64 {
    if row < ROWS { 1u64 << row } else { 0 }
}

// The set as one of the libraries.
pub(crate) fn mask_of(set: &[bool; ROWS]) -> u64 {
    let mut mask = 0;
    for (row, is_in) in set.iter().enumerate() {
        if *is_in {
            mask |= one(row);
        }
    }
    mask
}

// The crews of a reply.
pub(crate) fn crews_of(placed: &Placed) -> [u64; LISTED] {
    let mut crews = [0; LISTED];
    for placement in placed.made() {
        if let Some(crew) = crews.get_mut(placement.crew) {
            *crew |= one(placement.row);
        }
    }
    crews
}

fn fact_of(duty: &Duty, ranks: &[usize; ROWS], number: usize) -> Fact {
    let absent = set_of(number);
    let filled = duty.fill(Rule::Ordered, &absent);
    Fact {
        absence: order::ranks_of(ranks, duty.rows, &absent),
        blocks: brute::blocks(duty, &absent),
        found: filled.list.is_some(),
        units: filled.units,
        worth: duty.worth(&absent),
    }
}

// All that is known for this duty.
pub(crate) fn known_of(duty: Duty) -> Known {
    let ranks = duty.ranks();
    let sets = 1usize << duty.rows.min(ROWS);
    let mut facts = [NOTHING; SETS];
    for (number, fact) in facts.iter_mut().enumerate().take(sets) {
        *fact = fact_of(&duty, &ranks, number);
    }
    let mut in_order = facts;
    in_order.sort_unstable_by_key(|fact| fact.absence);
    Known {
        duty,
        sets,
        facts,
        in_order,
    }
}

impl Fact {
    // Whether this search tries it, with so many away.
    fn is_tried(&self, way: Way, away: usize) -> bool {
        let is_sought = match way {
            Way::Full => true,
            Way::Skipping => self.worth,
        };
        is_sought && self.absence.size <= away
    }
}

impl Known {
    // The facts of the set with this number.
    pub(crate) fn fact(&self, number: usize) -> Fact {
        self.facts.get(number).copied().unwrap_or(NOTHING)
    }

    // Whether the set with this number blocks, of at most `away` rows.
    fn is_blocker(&self, number: usize, away: usize) -> bool {
        let fact = self.fact(number);
        fact.absence.size <= away && fact.blocks
    }

    // The number of the first absence of at most `away` rows that blocks, the earliest of all that do.
    fn first_blocker(&self, away: usize) -> Option<usize> {
        (0..self.sets)
            .filter(|&number| self.is_blocker(number, away))
            .min_by_key(|&number| self.fact(number).absence)
    }

    // The need of the policy question: the units of the absences tried, up to and including the first that blocks.
    fn need(&self, way: Way, away: usize) -> u32 {
        let mut need: u32 = 0;
        for fact in &self.in_order {
            if fact.is_tried(way, away) {
                need = need.wrapping_add(1).wrapping_add(fact.units);
                if !fact.found {
                    break;
                }
            }
        }
        need
    }

    // What a policy question has to reply by this search.
    pub(crate) fn policy_reply(&self, way: Way, away: usize) -> Wanted {
        let need = self.need(way, away);
        if let Some(blocker) = self.first_blocker(away) {
            return Wanted {
                blocker: mask_of(&set_of(blocker)),
                ..Wanted::bare(Answer::No, need)
            };
        }
        let filled = self.duty.fill(Rule::Ordered, &[false; ROWS]);
        Wanted::listing(Answer::Yes, filled.list, need)
    }

    // What a question for the absence with this number has to reply by the rule.
    pub(crate) fn named_reply(&self, number: usize, rule: Rule) -> Wanted {
        let Filled { list, units } = self.duty.fill(rule, &set_of(number));
        // whether there is a list is by trying everything, which by filling
        if self.fact(number).blocks {
            return Wanted::bare(Answer::None, units);
        }
        Wanted::listing(Answer::Crews, list, units)
    }
}

impl Wanted {
    // With no crews and no blocker.
    pub(crate) fn bare(answer: Answer, units: u32) -> Wanted {
        Wanted {
            answer,
            crews: [0; LISTED],
            blocker: 0,
            units,
        }
    }

    // With the crews of this list.
    fn listing(answer: Answer, list: Option<Placed>, units: u32) -> Wanted {
        let bare = Wanted::bare(answer, units);
        match list {
            Some(placed) => Wanted {
                crews: crews_of(&placed),
                ..bare
            },
            None => bare,
        }
    }

    // What a question that is refused has to reply.
    pub(crate) fn refused() -> Wanted {
        Wanted::bare(Answer::Refused, 0)
    }

    // Whether all but the units is the same.
    pub(crate) fn is_alike(&self, other: &Wanted) -> bool {
        let units = other.units;
        Wanted { units, ..*self } == *other
    }

    // What has to be replied within an allowance.
    pub(crate) fn within(&self, allowance: u32) -> Wanted {
        if allowance < self.units {
            return Wanted::bare(Answer::Undecided, allowance);
        }
        *self
    }
}
