// Why an absence blocks, by the rules' own words: that it blocks by trying everything, the scarce permission by counting holders, and whether a single
// crew exists by trying everything once more.
use crate::brute;
use crate::family::bit_of;
use crate::known::{Answer, Known, Wanted, set_of};
use crate::plain::{Duty, PERMISSIONS, ROWS, contains};

// How many present rows hold permission p.
fn holders(duty: &Duty, absent: &[bool; ROWS], p: usize) -> usize {
    (0..duty.rows)
        .filter(|&row| !contains(absent, row) && duty.holds(row, p))
        .count()
}

// The lowest permission of the task that has fewer present holders than there are crews.
fn scarce(duty: &Duty, absent: &[bool; ROWS]) -> Option<usize> {
    (0..PERMISSIONS).find(|&p| duty.wants(p) && holders(duty, absent, p) < duty.crews)
}

// The reason of an absence that blocks where no permission is scarce.
fn other_reason(duty: &Duty, absent: &[bool; ROWS]) -> Answer {
    let single = Duty { crews: 1, ..*duty };
    if brute::blocks(&single, absent) {
        Answer::NoCrew
    } else {
        Answer::Overlap
    }
}

// What has to be explained of the absence with this number: the first reason that is true, or that there is nothing to explain. Reason 1 names its
// permission, as the set of that one alone.
pub(crate) fn wanted(known: &Known, number: usize, spread: bool) -> Wanted {
    let duty = &known.duty;
    let absent = set_of(number);
    let fact = known.fact(number);
    if !fact.blocks {
        return Wanted::bare(Answer::NothingToExplain, fact.units);
    }
    let Some(p) = scarce(duty, &absent) else {
        return Wanted::bare(other_reason(duty, &absent), fact.units);
    };
    Wanted {
        blocker: u64::from(bit_of(spread, p)),
        ..Wanted::bare(Answer::Scarce, fact.units)
    }
}
