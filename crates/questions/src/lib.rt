// The questions, asked of accounts: these are the doors for callers. What is refused of the accounts is refused here; then the persons are made,
// and the question is asked of their table by the crates below, where a row is a person: sets, ranks, sizes, absences and the blocker speak of
// persons.
#![tactic(auto)]

ghost use Rattle.questions.specs.Asked.{PolicyAskedFor, NamedAskedFor};

pub use absences::Way;
use accounts::Accounts;
use roster::{Policy, Reply};

// The policy question, by this search.
pub fn ask(way: Way, accounts: Accounts, policy: Policy, allowance: u32) -> Reply
    ensures { PolicyAskedFor way accounts policy allowance result }
{
    match accounts::ruling(accounts) {
        Err(refusal) => Reply::refused(refusal),
        Ok(()) => {
            let people = accounts::merged(accounts);
            absences::ask(way, people.table, policy, allowance)
        }
    }
}

// Which crews are left with these persons absent. How many may be away plays no part.
pub fn ask_named(accounts: Accounts, policy: Policy, absent: u64, allowance: u32) -> Reply
    ensures { NamedAskedFor accounts policy absent allowance result }
{
    match accounts::ruling(accounts) {
        Err(refusal) => Reply::refused(refusal),
        Ok(()) => {
            let people = accounts::merged(accounts);
            crews::ask_named(people.table, policy, absent, allowance)
        }
    }
}
