// A question as the libraries are asked it.
use crate::known::Wanted;
use accounts::Accounts;
use questions::Way;
use reasons::Explained;
use roster::{Policy, Reply};
use std::fmt;

// More than any need here.
pub const AMPLE: u32 = 4294967295;

// The ways to ask: either search, the two against each other, a named absence, filling crews for one against trying everything or against the
// rule before, and why one blocks.
#[derive(Clone, Copy)]
pub enum Asking {
    Skipping,
    Full,
    Both,
    Named,
    Filling,
    Before,
    Why,
}

impl fmt::Display for Asking {
    fn fmt<W: fmt::Write>(&self, f: &mut fmt::Formatter<W>) -> fmt::Result {
        f.write_str(match self {
            Asking::Skipping => "skipping",
            Asking::Full => "full",
            Asking::Both => "both",
            Asking::Named => "named",
            Asking::Filling => "filling",
            Asking::Before => "before",
            Asking::Why => "why",
        })
    }
}

// A duty as the libraries have it, and whether its permissions are spread over the whole width.
#[derive(Clone, Copy)]
pub struct Asked {
    pub spread: bool,
    pub accounts: Accounts,
    pub task: u32,
    pub crews: usize,
    pub size: u32,
    pub edition: u32,
}

// How many may be away counts for a policy; the absent persons for a named absence, and a policy has none.
#[derive(Clone, Copy)]
pub struct Question {
    pub asking: Asking,
    pub asked: Asked,
    pub away: u32,
    pub absent: Option<u64>,
    pub allowance: u32,
}

impl Question {
    // The policy question.
    pub(crate) fn policy(asked: &Asked, asking: Asking, away: u32) -> Question {
        Question {
            asking,
            asked: *asked,
            away,
            absent: None,
            allowance: AMPLE,
        }
    }

    // The question for a named absence.
    pub(crate) fn named(asked: &Asked, asking: Asking, absent: u64) -> Question {
        Question {
            asking,
            asked: *asked,
            away: 0,
            absent: Some(absent),
            allowance: AMPLE,
        }
    }

    // The same within an allowance.
    pub(crate) fn within(&self, allowance: u32) -> Question {
        Question { allowance, ..*self }
    }

    // What the libraries reply.
    pub(crate) fn reply(&self) -> Reply {
        let accounts = self.asked.accounts;
        let policy = self.asked.policy(self.away);
        match self.asking {
            Asking::Skipping => questions::ask(Way::Skipping, accounts, policy, self.allowance),
            Asking::Full => questions::ask(Way::Full, accounts, policy, self.allowance),
            _ => questions::ask_named(accounts, policy, self.absent.unwrap_or(0), self.allowance),
        }
    }

    // How the library explains the absence.
    pub(crate) fn explained(&self) -> Explained {
        let policy = self.asked.policy(self.away);
        let absent = self.absent.unwrap_or(0);
        reasons::why(self.asked.accounts, policy, absent, self.allowance)
    }

    // Either of these.
    pub(crate) fn came(&self) -> Wanted {
        match self.asking {
            Asking::Why => self.explained().into(),
            _ => self.reply().into(),
        }
    }
}

impl Asked {
    // The policy with so many away.
    fn policy(&self, away: u32) -> Policy {
        Policy {
            task: self.task,
            away,
            crews: self.crews,
            size: self.size,
            edition: self.edition,
        }
    }
}
