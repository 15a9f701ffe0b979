// Shows that the comparisons can fail: into right replies wrong parts are planted, and the comparison of each kind has to count every one.
use crate::compare::{Counts, Kind};
use crate::filling::Rule;
use crate::known::{Answer, Wanted};
use crate::plain::{Duty, digits};
use crate::question::{Asked, Asking, Question};
use crate::{family, known, persons, reason};
use questions::Way;
use reasons::{Explained, Explanation};
use roster::{Reply, Verdict};

// What is planted into: the replies to the paper's example a by both searches, to one named absence, and why another blocks, with what each has to
// be.
#[derive(Clone, Copy)]
pub struct Ground {
    asked: Asked,
    policy: Wanted,
    named: Wanted,
    why: Wanted,
}

// The parts of a reply.
#[derive(Clone, Copy)]
enum Part {
    Verdict,
    Blocker,
    Crews,
    Units,
}

const PARTS: [Part; 4] = [Part::Verdict, Part::Blocker, Part::Crews, Part::Units];

// All but the units, which are a kind of their own where one side may need fewer.
const ALIKE: [Part; 3] = [Part::Verdict, Part::Blocker, Part::Crews];

// Rows that hold 3, 1, 2 and 3, asked for two crews of two.
fn example() -> Duty {
    Duty {
        rows: 4,
        cells: digits(0b000011_000010_000001_000011),
        task: [true, true, false, false, false, false],
        crews: 2,
        size: 2,
        edition: 1,
    }
}

pub(crate) fn example_ground() -> Ground {
    let duty = example();
    let known = known::known_of(duty);
    Ground {
        asked: family::asked_of(&persons::own(duty), false, 0),
        policy: known.policy_reply(Way::Skipping, 1),
        named: known.named_reply(1, Rule::Ordered),
        why: reason::wanted(&known, 9, false),
    }
}

// The reply with one part altered: of the units there are then more.
fn altered(reply: &Reply, part: Part) -> Wanted {
    let mut wrong = *reply;
    match part {
        Part::Verdict => wrong.verdict = Verdict::Undecided,
        Part::Blocker => wrong.blocker ^= 2,
        Part::Crews => wrong.crews[1] ^= 8,
        Part::Units => wrong.units ^= 4,
    }
    wrong.into()
}

// The explanation with one part altered each time: the reason, the permission and the units.
fn misexplained(right: Explained) -> [Wanted; 3] {
    let reason = Explained {
        why: Explanation::NoCrew,
        ..right
    };
    let permission = Explained {
        why: Explanation::Scarce(1),
        ..right
    };
    let units = Explained {
        units: right.units ^ 4,
        ..right
    };
    [reason.into(), permission.into(), units.into()]
}

impl Ground {
    // The policy question asked so, with one away.
    fn policy_question(&self, asking: Asking) -> Question {
        Question::policy(&self.asked, asking, 1)
    }

    // The question for the first row absent, asked so.
    fn named_question(&self, asking: Asking) -> Question {
        Question::named(&self.asked, asking, 1)
    }

    // Why the absence of the first and the last row blocks: a permission is scarce.
    fn why_question(&self) -> Question {
        Question::named(&self.asked, Asking::Why, 9)
    }

    // The comparison of policy questions, with this part altered.
    fn policy(&self, counts: &mut Counts, part: Part) {
        let question = self.policy_question(Asking::Skipping);
        counts.policy(&question, &self.policy, &altered(&question.reply(), part));
    }

    // The comparison of named absences, with each part altered.
    fn named(&self, counts: &mut Counts) {
        let question = self.named_question(Asking::Named);
        let reply = question.reply();
        for part in PARTS {
            counts.whole(Kind::Named, &question, &self.named, &altered(&reply, part));
        }
    }

    // The comparison of the two searches, with these parts altered.
    fn both(&self, counts: &mut Counts, parts: &[Part]) {
        let question = self.policy_question(Asking::Both);
        let reply = self.policy_question(Asking::Full).reply();
        for part in parts {
            counts.alike(
                family::BOTH,
                &question,
                &reply.into(),
                &altered(&reply, *part),
            );
        }
    }

    // The comparison under an allowance: a decided reply where one unit less than the need is allowed, and each part altered where the need is.
    fn allowed(&self, counts: &mut Counts) {
        let question = self.policy_question(Asking::Skipping);
        let reply = question.reply();
        counts.whole(
            Kind::Allowance,
            &question.within(7),
            &self.policy,
            &reply.into(),
        );
        for part in PARTS {
            let wrong = altered(&reply, part);
            counts.whole(Kind::Allowance, &question.within(8), &self.policy, &wrong);
        }
    }

    // The comparison of filling: no list found where there is one, and one found where there is none.
    fn filling(&self, counts: &mut Counts) {
        let question = self.named_question(Asking::Filling);
        counts.filling(&question, &self.named, false);
        let none = Wanted {
            answer: Answer::None,
            ..self.named
        };
        counts.filling(&question, &none, true);
    }

    // The comparison with the rule before, with these parts altered; by that rule the reply to the named absence is the same.
    fn before(&self, counts: &mut Counts, parts: &[Part]) {
        let question = self.named_question(Asking::Before);
        let reply = question.reply();
        for part in parts {
            counts.alike(
                family::BEFORE,
                &question,
                &self.named,
                &altered(&reply, *part),
            );
        }
    }

    // The comparison of reasons, with each part altered.
    fn why(&self, counts: &mut Counts, kind: Kind, question: &Question, explained: Explained) {
        for wrong in misexplained(explained) {
            counts.whole(kind, question, &self.why, &wrong);
        }
    }

    // The comparison of reasons under an allowance: a reason where one unit less than the need is allowed, and a part altered where the need is.
    fn why_allowed(&self, counts: &mut Counts) {
        let kind = Kind::ReasonAllowance;
        let question = self.why_question();
        let explained = question.explained();
        counts.whole(kind, &question.within(1), &self.why, &explained.into());
        self.why(counts, kind, &question.within(2), explained);
    }

    // The comparison of one kind, on wrong replies alone.
    pub(crate) fn planted(&self, counts: &mut Counts, kind: Kind) {
        match kind {
            Kind::Verdict => self.policy(counts, Part::Verdict),
            Kind::Blocker => self.policy(counts, Part::Blocker),
            Kind::Crews => self.policy(counts, Part::Crews),
            Kind::Units => self.policy(counts, Part::Units),
            Kind::Named => self.named(counts),
            Kind::Both => self.both(counts, &ALIKE),
            Kind::Need => self.both(counts, &[Part::Units]),
            Kind::Allowance => self.allowed(counts),
            Kind::Filling => self.filling(counts),
            Kind::List => self.before(counts, &ALIKE),
            Kind::Placements => self.before(counts, &[Part::Units]),
            Kind::Reason => {
                let question = self.why_question();
                self.why(counts, kind, &question, question.explained());
            }
            Kind::ReasonAllowance => self.why_allowed(counts),
        }
    }
}
