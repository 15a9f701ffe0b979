// The values that every question is asked with and answered by: the table of who holds what, the policy with its limits, the refusals
// and the reply. What they mean stands in specs/: Meaning is the law that a "yes" or a "no" is held to, and it knows nothing of a search.
#![tactic(auto)]

ghost use Rattle.std.specs.Prelude.{◌≡◌, ◌^◌, leb};
ghost use Rattle.roster.specs.Limits.{row_limit, away_limit, crew_limit, size_limit, edition_limit};
ghost use Rattle.roster.specs.Meaning.{least_members};
ghost use Rattle.roster.specs.Refusals.{number_of, policy_ruling, ruling_of, named_ruling_of, made_of};
ghost use Rattle.roster.specs.Replies.{no_crews, reply_with};

// Who holds what: bit i of a row's holdings is permission i. Holdings past the row count play no part. An array of 64 with its count beside: the rules
// name this form.
#[derive(Clone, Copy)]
pub struct Table {
    pub holdings: [u32; Policy::ROWS],
    pub rows: usize,
}

// Any `away` people absent, still `crews` separate crews of at most `size`, each holding every permission of `task`; by the rule of this
// edition, of which the second asks for two members in each crew. An edition is a number and no enum: a policy may have any numbers, and `Policy::new`
// refuses those that there are not.
#[derive(Clone, Copy, Debug, PartialEq, Eq)]
pub struct Policy {
    pub task: u32,
    pub away: u32,
    pub crews: usize,
    pub size: u32,
    pub edition: u32,
}

// Why a question is refused. `number` gives the number that is published for each.
#[derive(Clone, Copy, Debug, PartialEq, Eq)]
pub enum Refusal {
    Rows,
    Task,
    Away,
    Crews,
    Size,
    Absence,
    Edition,
}

// What a question is answered with. `Crews` and `None` answer a named absence, `Yes` and `No` a policy.
#[derive(Clone, Copy, Debug, PartialEq, Eq)]
pub enum Verdict {
    Yes,
    No,
    Undecided,
    Crews,
    None,
    Refused(Refusal),
}

// The whole reply: specs/Replies sets out which values go with each verdict. One struct that holds eight crews, and no enum that carries what goes with
// each: the rules name this form, and the theorems on replies speak of its fields.
#[derive(Clone, Copy, Debug, PartialEq, Eq)]
pub struct Reply {
    pub verdict: Verdict,
    pub crews: [u64; Policy::CREWS],
    pub blocker: u64,
    pub units: u32,
}

impl Policy {
    // Rows of a table at most.
    pub const ROWS: usize = 64;
    // People away at most.
    pub const AWAY: u32 = 64;
    // Crews asked for at most.
    pub const CREWS: usize = 8;
    // Members of a crew at most; as many as there are rows, so no limit at all.
    pub const SIZE: u32 = 64;
    // Editions of the restore rule, numbered from 1.
    pub const EDITIONS: u32 = 2;

    // The policy, or the first of its own faults.
    pub fn new(
        task: u32,
        away: u32,
        crews: usize,
        size: u32,
        edition: u32,
    ) -> Result<Policy, Refusal>
        ensures made { result ≡ made_of task away crews size edition }
        ensures rows { Policy.ROWS ≡ row_limit }
        ensures away { Policy.AWAY ≡ away_limit }
        ensures crews { Policy.CREWS ≡ crew_limit }
        ensures size { Policy.SIZE ≡ size_limit }
        ensures editions { Policy.EDITIONS ≡ edition_limit }
    {
        first_fault(0, task, away, crews, size, edition)?;
        Ok(Policy {
            task,
            away,
            crews,
            size,
            edition,
        })
    }
}

// Every reply is made here, one maker for each row of the table "What comes back".
impl Reply {
    // The verdict with nothing beside it.
    fn bare(verdict: Verdict) -> Reply
        ensures { result ≡ record { verdict = verdict; crews = no_crews; blocker = 0; units = 0 } }
    {
        Reply {
            verdict,
            crews: [0; Policy::CREWS],
            blocker: 0,
            units: 0,
        }
    }

    // The policy holds: the first list with nobody absent.
    pub fn yes(crews: [u64; Policy::CREWS], need: u32) -> Reply
        ensures { result ≡ reply_with crews 0 need 0 Verdict.Yes }
    {
        Reply {
            crews,
            units: need,
            ..Reply::bare(Verdict::Yes)
        }
    }

    // It does not: the first blocking absence.
    pub fn no(blocker: u64, need: u32) -> Reply
        ensures { result ≡ reply_with no_crews blocker need 0 Verdict.No }
    {
        Reply {
            blocker,
            units: need,
            ..Reply::bare(Verdict::No)
        }
    }

    // The allowance is below the need.
    pub fn undecided(allowance: u32) -> Reply
        ensures { result ≡ reply_with no_crews 0 0 allowance Verdict.Undecided }
    {
        Reply {
            units: allowance,
            ..Reply::bare(Verdict::Undecided)
        }
    }

    // A named absence leaves crews: the first list.
    pub fn crews(crews: [u64; Policy::CREWS], need: u32) -> Reply
        ensures { result ≡ reply_with crews 0 need 0 Verdict.Crews }
    {
        Reply {
            crews,
            units: need,
            ..Reply::bare(Verdict::Crews)
        }
    }

    // It leaves none.
    pub fn none(need: u32) -> Reply
        ensures { result ≡ reply_with no_crews 0 need 0 Verdict.None }
    {
        Reply {
            units: need,
            ..Reply::bare(Verdict::None)
        }
    }

    // Nothing but the refusal.
    pub fn refused(refusal: Refusal) -> Reply
        ensures { result ≡ reply_with no_crews 0 0 0 (Verdict.Refused refusal) }
    {
        Reply::bare(Verdict::Refused(refusal))
    }
}

impl Refusal {
    // The published number.
    pub fn number(self) -> u32
        ensures { result ≡ number_of self }
    {
        match self {
            Refusal::Rows => 1,
            Refusal::Task => 2,
            Refusal::Away => 3,
            Refusal::Crews => 4,
            Refusal::Size => 5,
            Refusal::Absence => 6,
            Refusal::Edition => 25,
        }
    }
}

// How many members a crew has at least under this edition.
#[tactic(auto, unfolding(crate::specs::Meaning::least_members))]
pub fn least_members(edition: u32) -> u32
    ensures { result ≡ least_members edition }
{
    if edition == 2 {
        return 2;
    }
    0
}

// The first fault of these numbers.
#[tactic(auto, unfolding(crate::specs::Refusals::policy_ruling))]
fn first_fault(
    rows: usize,
    task: u32,
    away: u32,
    crews: usize,
    size: u32,
    edition: u32,
) -> Result<(), Refusal>
    ensures { result ≡ policy_ruling rows task away crews size edition }
{
    if rows > Policy::ROWS {
        return Err(Refusal::Rows);
    }
    if task == 0 {
        return Err(Refusal::Task);
    }
    if away > Policy::AWAY {
        return Err(Refusal::Away);
    }
    if crews == 0 {
        return Err(Refusal::Crews);
    }
    if crews > Policy::CREWS {
        return Err(Refusal::Crews);
    }
    if size == 0 {
        return Err(Refusal::Size);
    }
    if size > Policy::SIZE {
        return Err(Refusal::Size);
    }
    if edition == 0 {
        return Err(Refusal::Edition);
    }
    if edition > Policy::EDITIONS {
        return Err(Refusal::Edition);
    }
    Ok(())
}

// The first fault of a policy question.
pub fn policy_ruling(rows: usize, policy: Policy) -> Result<(), Refusal>
    ensures { result ≡ ruling_of rows policy }
{
    first_fault(
        rows,
        policy.task,
        policy.away,
        policy.crews,
        policy.size,
        policy.edition,
    )
}

// Whether the set has a bit at or past the row count. A shift by 64 is no operation, and no set has a bit there.
fn past_rows(rows: usize, set: u64) -> bool
    ensures { result ≡ leb (2 ^ rows) set }
{
    if rows >= Policy::ROWS {
        return false;
    }
    set >> rows != 0
}

// The first fault of a question for a named absence, which does not look at how many may be away.
pub fn named_ruling(rows: usize, policy: Policy, absent: u64) -> Result<(), Refusal>
    ensures { result ≡ named_ruling_of rows policy absent }
{
    let away = 0;
    first_fault(
        rows,
        policy.task,
        away,
        policy.crews,
        policy.size,
        policy.edition,
    )?;
    if past_rows(rows, absent) {
        return Err(Refusal::Absence);
    }
    Ok(())
}
