// The comparisons, each counted by its kind, with the differences found. What came, what was wanted and of which question are compared in one place and
// made in another: a value of the three would be made for each comparison.
use crate::known::{ANSWERS, Answer, LISTED, Wanted};
use crate::question::Question;
use reasons::{Explained, Explanation};
use roster::{Reply, Verdict};
use std::{fmt, io};

// The kinds of comparison.
#[derive(Clone, Copy, PartialEq, Eq)]
pub enum Kind {
    Verdict,
    Blocker,
    Crews,
    Units,
    Named,
    Both,
    Need,
    Allowance,
    Filling,
    List,
    Placements,
    Reason,
    ReasonAllowance,
}

pub const KINDS: [Kind; 13] = [
    Kind::Verdict,
    Kind::Blocker,
    Kind::Crews,
    Kind::Units,
    Kind::Named,
    Kind::Both,
    Kind::Need,
    Kind::Allowance,
    Kind::Filling,
    Kind::List,
    Kind::Placements,
    Kind::Reason,
    Kind::ReasonAllowance,
];

impl fmt::Display for Kind {
    fn fmt<W: fmt::Write>(&self, f: &mut fmt::Formatter<W>) -> fmt::Result {
        f.write_str(match self {
            Kind::Verdict => "verdict",
            Kind::Blocker => "blocker",
            Kind::Crews => "crews",
            Kind::Units => "units",
            Kind::Named => "named absence",
            Kind::Both => "both searches",
            Kind::Need => "need of skipping at most that of full",
            Kind::Allowance => "allowance",
            Kind::Filling => "filling and trying everything",
            Kind::List => "list by the rule before",
            Kind::Placements => "placements at most by that rule",
            Kind::Reason => "reason",
            Kind::ReasonAllowance => "reason within an allowance",
        })
    }
}

// How many comparisons of a kind were made, how many differed, and by which table the first.
#[derive(Clone, Copy)]
pub struct Tally {
    compared: u64,
    differ: u64,
    pub first: Option<usize>,
}

// The tallies of so many kinds. `table` is the number of the one being tried.
#[derive(Clone, Copy)]
pub struct Tallies<const N: usize> {
    tallies: [Tally; N],
    table: usize,
}

const NONE: Tally = Tally {
    compared: 0,
    differ: 0,
    first: None,
};

impl fmt::Display for Tally {
    fn fmt<W: fmt::Write>(&self, f: &mut fmt::Formatter<W>) -> fmt::Result {
        write!(f, "{} compared, {} differ", self.compared, self.differ)
    }
}

impl<const N: usize> Tallies<N> {
    pub(crate) fn none() -> Tallies<N> {
        Tallies {
            tallies: [NONE; N],
            table: 0,
        }
    }

    // The table with this number is tried next.
    pub(crate) fn at(&mut self, table: usize) {
        self.table = table;
    }

    // What was counted of the kind with this number; nothing where there is no such kind.
    pub(crate) fn of(&self, kind: usize) -> Tally {
        self.tallies.get(kind).copied().unwrap_or(NONE)
    }

    // One comparison more of the kind with this number, a difference unless both sides are the same. Answers whether it is the first that differs.
    pub(crate) fn note(&mut self, kind: usize, same: bool) -> bool {
        let Some(tally) = self.tallies.get_mut(kind) else {
            return false;
        };
        tally.compared = tally.compared.wrapping_add(1);
        if same {
            return false;
        }
        tally.differ = tally.differ.wrapping_add(1);
        let is_first = tally.first.is_none();
        if is_first {
            tally.first = Some(self.table);
        }
        is_first
    }
}

// A difference: the question, what was wanted and what came.
#[derive(Clone, Copy)]
pub struct Difference {
    pub question: Question,
    pub wanted: Wanted,
    pub came: Wanted,
}

// The comparisons of each kind, and how many replies had each verdict. The first difference of the kind `shown` is kept, to be written to standard
// output.
#[derive(Clone, Copy)]
pub struct Counts {
    pub tallies: Tallies<13>,
    replied: [u64; 10],
    shown: Option<Kind>,
    pub first: Option<Difference>,
}

impl Counts {
    // Nothing yet; the first difference of the kind is to be shown, if there is one.
    pub(crate) fn showing(shown: Option<Kind>) -> Counts {
        Counts {
            tallies: Tallies::none(),
            replied: [0; 10],
            shown,
            first: None,
        }
    }

    // One reply more with this verdict.
    fn saw(&mut self, answer: Answer) {
        if let Some(count) = self.replied.get_mut(answer as usize) {
            *count = count.wrapping_add(1);
        }
    }

    // How many replies had each verdict.
    pub(crate) fn replies(&self) -> [(Answer, u64); 10] {
        std::array::from_fn(|i| (ANSWERS[i], self.replied[i]))
    }

    // Comparisons of what came with what was wanted, each with its kind and whether they are the same in that.
    fn note(
        &mut self,
        question: &Question,
        wanted: &Wanted,
        came: &Wanted,
        parts: &[(Kind, bool)],
    ) {
        for (kind, same) in parts {
            let is_first = self.tallies.note(*kind as usize, *same);
            if is_first && self.shown == Some(*kind) {
                self.first = Some(Difference {
                    question: *question,
                    wanted: *wanted,
                    came: *came,
                });
            }
        }
    }

    // A policy question's reply, part by part.
    pub(crate) fn policy(&mut self, question: &Question, wanted: &Wanted, came: &Wanted) {
        self.saw(came.answer);
        let parts = [
            (Kind::Verdict, came.answer == wanted.answer),
            (Kind::Blocker, came.blocker == wanted.blocker),
            (Kind::Crews, came.crews == wanted.crews),
            (Kind::Units, came.units == wanted.units),
        ];
        self.note(question, wanted, came, &parts);
    }

    // A reply or an explanation within the question's allowance, whole.
    pub(crate) fn whole(
        &mut self,
        kind: Kind,
        question: &Question,
        wanted: &Wanted,
        came: &Wanted,
    ) {
        let right = wanted.within(question.allowance);
        self.saw(came.answer);
        self.note(question, &right, came, &[(kind, *came == right)]);
    }

    // A reply that has to be the same with no more units: whether it is, and whether it needs no more, each with its kind.
    pub(crate) fn alike(
        &mut self,
        kinds: (Kind, Kind),
        question: &Question,
        wanted: &Wanted,
        came: &Wanted,
    ) {
        let (same, fewer) = kinds;
        let parts = [
            (same, came.is_alike(wanted)),
            (fewer, came.units <= wanted.units),
        ];
        self.note(question, wanted, came, &parts);
    }

    // Whether filling found a list, held against what trying everything says.
    pub(crate) fn filling(&mut self, question: &Question, wanted: &Wanted, found: bool) {
        let answer = if found { Answer::Crews } else { Answer::None };
        let came = Wanted { answer, ..*wanted };
        self.note(
            question,
            wanted,
            &came,
            &[(Kind::Filling, answer == wanted.answer)],
        );
    }
}

impl From<Verdict> for Answer {
    fn from(verdict: Verdict) -> Answer {
        match verdict {
            Verdict::Yes => Answer::Yes,
            Verdict::No => Answer::No,
            Verdict::Undecided => Answer::Undecided,
            Verdict::Crews => Answer::Crews,
            Verdict::None => Answer::None,
            Verdict::Refused(_) => Answer::Refused,
        }
    }
}

impl From<Explanation> for Answer {
    fn from(why: Explanation) -> Answer {
        match why {
            Explanation::Scarce(_) => Answer::Scarce,
            Explanation::NoCrew => Answer::NoCrew,
            Explanation::Overlap => Answer::Overlap,
            Explanation::Nothing => Answer::NothingToExplain,
            Explanation::Undecided => Answer::Undecided,
            Explanation::Refused(_) => Answer::Refused,
        }
    }
}

// A reply as it is compared.
impl From<Reply> for Wanted {
    fn from(reply: Reply) -> Wanted {
        let Reply {
            verdict,
            crews,
            blocker,
            units,
        } = reply;
        Wanted {
            answer: verdict.into(),
            crews,
            blocker,
            units,
        }
    }
}

// The permission that is scarce, as a set; none for any other reason.
fn permission_of(why: Explanation) -> u64 {
    match why {
        Explanation::Scarce(permission) => 1u64.checked_shl(permission).unwrap_or(0),
        _ => 0,
    }
}

// An explanation as it is compared.
impl From<Explained> for Wanted {
    fn from(explained: Explained) -> Wanted {
        Wanted {
            answer: explained.why.into(),
            crews: [0; LISTED],
            blocker: permission_of(explained.why),
            units: explained.units,
        }
    }
}

// "NAME: N compared, M differ"
pub(crate) fn show(rt: &impl Print, name: &impl fmt::Display, tally: Tally) -> io::Result<()> {
    println!(rt; "{name}: {tally}")
}
