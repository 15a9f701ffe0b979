// What is answered: numbers, people and permissions as text on standard output.
use crate::board::Board;
use live::{Objection, Roster};
use roster::{Policy, Refusal, Reply, Verdict};

// Whether all of it could be written. A `bool` and no `Result` for `?`: what follows a piece that could not be written is written all the same, and
// the last piece of an answer tells whether it is heard.
pub(crate) fn text(rt: &impl Print, bytes: &[u8]) -> bool {
    rt.write_all(bytes).is_ok()
}

// The end of an answer.
pub(crate) fn end(rt: &impl Print) -> bool {
    text(rt, b"\n")
}

// A mark, then a number.
pub(crate) fn number(rt: &impl Print, mark: u8, n: u64) {
    text(rt, &[mark]);
    let _ = rt.print(n);
}

// A mark, then the staff numbers of a set of rows, joined by commas; `-` for none.
pub(crate) fn people(rt: &impl Print, mark: u8, numbers: [u32; Policy::ROWS], set: u64) {
    let mut before = mark;
    for (row, staff) in numbers.iter().enumerate() {
        if (set >> row) & 1 == 1 {
            number(rt, before, u64::from(*staff));
            before = b',';
        }
    }
    if set == 0 {
        text(rt, &[mark, b'-']);
    }
}

// A space, then the crews, joined by slashes; `-` where the first is empty, as then all are.
fn crews(rt: &impl Print, numbers: [u32; Policy::ROWS], crews: [u64; 8]) {
    people(rt, b' ', numbers, crews[0]);
    for crew in &crews[1..] {
        if *crew != 0 {
            people(rt, b'/', numbers, *crew);
        }
    }
}

// A space, then the codes of a set of permissions, joined by commas; `-` for none.
pub(crate) fn codes(rt: &impl Print, board: Board, set: u32) {
    let mut before = b' ';
    for (bit, code) in board.values.codes.iter().enumerate() {
        if (set >> bit) & 1 == 1 {
            number(rt, before, u64::from(*code));
            before = b',';
        }
    }
    if set == 0 {
        text(rt, b" -");
    }
}

// Why a call is not done, by number and in words.
pub(crate) fn objection(rt: &impl Print, objection: Objection) -> bool {
    text(rt, b"refused");
    number(rt, b' ', u64::from(objection.number()));
    match objection {
        Objection::Permission => text(rt, b": there is no such permission\n"),
        Objection::Nobody => text(rt, b": there is nobody with this staff number\n"),
        Objection::Present => text(rt, b": this staff number is in the roster already\n"),
        Objection::Full => text(rt, b": all 64 places are taken\n"),
    }
}

// Why a question is not answered.
fn refusal(rt: &impl Print, refusal: Refusal) -> bool {
    text(rt, b"refused");
    number(rt, b' ', u64::from(refusal.number()));
    match refusal {
        Refusal::Rows => text(rt, b": more than 64 rows\n"),
        Refusal::Task => text(rt, b": the task has no permission\n"),
        Refusal::Away => text(rt, b": more than 64 away\n"),
        Refusal::Crews => text(rt, b": there can be 1 to 8 crews\n"),
        Refusal::Size => text(rt, b": a crew can have 1 to 64 members\n"),
        Refusal::Absence => text(rt, b": somebody is away who is not in the roster\n"),
        Refusal::Edition => text(rt, b": the edition is 1 or 2\n"),
    }
}

// A verdict that is no refusal.
fn verdict(rt: &impl Print, verdict: Verdict) -> bool {
    match verdict {
        Verdict::Yes => text(rt, b"yes"),
        Verdict::No => text(rt, b"no"),
        Verdict::Undecided => text(rt, b"undecided"),
        Verdict::Crews => text(rt, b"crews"),
        Verdict::None => text(rt, b"none"),
        Verdict::Refused(_) => text(rt, b"refused"),
    }
}

// A reply as the sheet has it: verdict, units, and the crews, or those without whom there are none.
pub(crate) fn reply(rt: &impl Print, roster: Roster, reply: Reply) -> bool {
    if let Verdict::Refused(why) = reply.verdict {
        return refusal(rt, why);
    }
    verdict(rt, reply.verdict);
    number(rt, b' ', u64::from(reply.units));
    let numbers = roster.numbers();
    if reply.blocker == 0 {
        crews(rt, numbers, reply.crews);
    } else {
        people(rt, b' ', numbers, reply.blocker);
    }
    end(rt)
}
