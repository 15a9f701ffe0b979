// Why a named absence blocks, asked of accounts: whether to train, to enlarge crews or to hire. The named question is asked first, and its refusal,
// its units and whether it decides at all are this one's too; only where it finds no crews is a reason looked for. What the reasons are stands in
// specs/Reasons, without any search.
#![tactic(auto)]

ghost use Rattle.std.specs.Prelude.{◌≡◌, ◌<◌};
ghost use Rattle.std.specs.Int.Bits.{bit_and};
ghost use Rattle.sets.specs.Arrays.{at};
ghost use Rattle.accounts.specs.Persons.{first};
ghost use Rattle.reasons.specs.Reasons.{Reason, reason_number};
ghost use Rattle.reasons.specs.Replies.{WhyReplyFor};
ghost use Rattle.reasons.specs.Inner.{Stuck, permission_of};
ghost use Rattle.reasons.specs.Replied.{scarce_in};

use accounts::Accounts;
use roster::{Policy, Refusal, Table, Verdict};

// What is answered: one of the three reasons, the first that is true; that crews exist, so that there is nothing to explain; or why nothing can be
// told. One enum and no `Result` of them: the definition `reason_number` sets out this answer's number and value for each of its cases.
#[derive(Clone, Copy)]
pub enum Explanation {
    // too few of those present hold this permission of the task: its bit number
    Scarce(u32),
    // not even one crew within the size limit exists
    NoCrew,
    // single crews exist, but not so many that share nobody
    Overlap,
    Nothing,
    Undecided,
    Refused(Refusal),
}

// The answer and the units of the named question.
#[derive(Clone, Copy)]
pub struct Explained {
    pub why: Explanation,
    pub units: u32,
}

impl Explanation {
    // The published number of the reason: 1, 2 or 3; 0 where no reason is given.
    pub fn number(self) -> u32
        ensures { result ≡ reason_number self }
    {
        match self {
            Explanation::Scarce(_) => 1,
            Explanation::NoCrew => 2,
            Explanation::Overlap => 3,
            Explanation::Nothing | Explanation::Undecided | Explanation::Refused(_) => 0,
        }
    }
}

// Whether the permission is one of the task that fewer than so many of the free persons hold.
fn scarce(holders: &[u64; 32], task: u32, crews: usize, free: u64, permission: u32) -> bool
    requires { permission < 32 }
    ensures { result ≡ scarce_in (λ p. bit_and (at holders.now p) free) task crews permission }
{
    if (task >> permission) & 1 == 0 {
        return false;
    }
    let present = sets::size(holders[permission as usize] & free) as usize;
    present < crews
}

// The lowest such permission.
fn lowest_scarce(holders: &[u64; 32], task: u32, crews: usize, free: u64) -> Option<u32>
    ensures { result ≡ permission_of (first (scarce_in (λ p. bit_and (at holders.now p) free) task crews) 32) }
{
    for permission in 0..32 {
        if scarce(holders, task, crews, free, permission) {
            return Some(permission);
        }
    }
    None
}

// The reason why an absence blocks. The named question for one crew needs no more than the one that was decided, so it is decided too.
fn reason(table: Table, policy: Policy, absent: u64, allowance: u32) -> Explanation
    requires { Stuck table policy.task policy.crews policy.size policy.edition absent allowance }
    ensures { Reason table policy.task policy.crews policy.size policy.edition absent result }
{
    let holds = crews::holdings_within(table, policy.task);
    let holders = crews::holders_of(&holds);
    let free = sets::below(table.rows) & !absent;
    if let Some(permission) = lowest_scarce(&holders, policy.task, policy.crews, free) {
        return Explanation::Scarce(permission);
    }
    let single = Policy { crews: 1, ..policy };
    let one = crews::ask_named(table, single, absent, allowance);
    match one.verdict {
        Verdict::Crews => Explanation::Overlap,
        _ => Explanation::NoCrew,
    }
}

// Why these persons' absence blocks, or what else there is to say. How many may be away plays no part.
pub fn why(accounts: Accounts, policy: Policy, absent: u64, allowance: u32) -> Explained
    ensures { WhyReplyFor accounts policy absent allowance result }
{
    let named = questions::ask_named(accounts, policy, absent, allowance);
    let why = match named.verdict {
        Verdict::Refused(refusal) => Explanation::Refused(refusal),
        Verdict::Crews => Explanation::Nothing,
        Verdict::None => {
            let people = accounts::merged(accounts);
            reason(people.table, policy, absent, allowance)
        }
        _ => Explanation::Undecided,
    };
    Explained {
        why,
        units: named.units,
    }
}
