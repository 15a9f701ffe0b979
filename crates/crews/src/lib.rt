// Filling crews, and the question for one named absence. The search goes one placement deeper at a time and takes it back; what it counts
// and in which order it goes is the definition in specs/Filling, to the unit. Holdings and holders are worked out once and lent, so that a
// placement costs a few operations on masks.
#![tactic(auto)]

ghost use Rattle.std.specs.Prelude.{◌≡◌, ◌-◌, ◌≤◌, ◌<◌};
ghost use Rattle.std.specs.Int.Bits.{bit_and, bit_xor};
ghost use Rattle.std.specs.Int.Count.{ones};
ghost use Rattle.roster.specs.Limits.{row_limit, crew_limit};
ghost use Rattle.crews.specs.Filling.{place_of, close_of, closes_of, placed_of, pool_of, begin, search, holds_of, holders_of};
ghost use Rattle.sets.specs.Arrays.{tabulate, at};
ghost use Rattle.crews.specs.Filled.{filled_with, filled_of, found_from, rule_of};
ghost use Rattle.crews.specs.Inner.Placing.{closed_where, stuck, eligible_of, Ready, Placing};
ghost use Rattle.crews.specs.Inner.Replied.{replied_of};
ghost use Rattle.roster.specs.Replies.{no_crews};
ghost use Rattle.crews.specs.declared.Ending.TheVariants.{Complete};
ghost use Rattle.crews.specs.Named.{NamedReplyFor};

use roster::{Policy, Reply, Table};
use sets::Members;

// What crews are filled for, and of whom: what each row holds, who holds each permission, the task, how many crews, of how many members at most and at
// least, and the allowance.
#[derive(Clone, Copy)]
pub struct Wanted {
    pub holds: [u32; Policy::ROWS],
    pub holders: [u64; 32],
    pub task: u32,
    pub crews: usize,
    pub size: u32,
    pub least: u32,
    pub allowance: u32,
}

// The half-filled crews: those closed, the one being filled, the rows neither absent nor placed, what the crew being filled holds, and the
// lowest row that may begin the next crew. The crew being filled is a field of its own because it changes with each row: written into the
// array, the copy of the array that follows would wait for it.
#[derive(Clone, Copy)]
struct Filling {
    crews: [u64; Policy::CREWS],
    closed: usize,
    crew: u64,
    free: u64,
    held: u32,
    from: usize,
}

// How filling ends: with a complete list, with all lists exhausted, or because one more unit than the allowance was wanted.
#[derive(Clone, Copy)]
pub enum Ending {
    Complete,
    Exhausted,
    Undecided,
}

// What filling comes to: the crews are all 0 unless it ends complete. One value by value, as the reply is that it becomes, and no enum that carries
// the crews. They stand first because behind a field of one byte they are copied more slowly.
#[derive(Clone, Copy)]
pub struct Filled {
    pub crews: [u64; Policy::CREWS],
    pub units: u32,
    pub ending: Ending,
}

impl Filling {
    // Nothing placed, and these rows free.
    fn begin(free: u64) -> Filling
        ensures { result ≡ begin free }
    {
        let crews = [0; Policy::CREWS];
        Filling {
            crews,
            closed: 0,
            crew: 0,
            free,
            held: 0,
            from: 0,
        }
    }

    // The row in the crew being filled, which then holds what the row holds.
    fn place(self, row: usize, holds: u32) -> Filling
        requires { row < row_limit }
        ensures { result ≡ place_of self row holds }
    {
        let from = if self.crew == 0 { row + 1 } else { self.from };
        Filling {
            crew: self.crew | (1u64 << row),
            free: self.free ^ (1u64 << row),
            held: self.held | holds,
            from,
            ..self
        }
    }

    // The crew being filled among those closed, and the next begun.
    fn close(self) -> Filling
        requires { self.closed < crew_limit }
        ensures { result ≡ close_of self }
    {
        let at = self.closed;
        let mut crews = self.crews;
        crews[at] = self.crew;
        Filling {
            crews,
            closed: at + 1,
            crew: 0,
            held: 0,
            ..self
        }
    }

    // Whether the crew being filled can be closed: it covers the task and has members enough.
    fn closes(self, task: u32, least: u32) -> bool
        ensures { result ≡ closes_of task least self }
    {
        if missing(task, self.held) != 0 {
            return false;
        }
        // counting members takes time, and the first edition asks for none
        if least == 0 {
            return true;
        }
        sets::size(self.crew) >= least
    }

    // The crew being filled closed where it can be.
    fn settled(self, task: u32, least: u32) -> Filling
        requires { (closed_where task least self).closed ≤ crew_limit }
        ensures { result ≡ closed_where task least self }
    {
        if self.closes(task, least) {
            self.close()
        } else {
            self
        }
    }

    // Of these rows those that may come next in the crew being filled: a crew begins above the first row of the crew before.
    fn eligible(self, rows: u64) -> u64
        ensures { result ≡ eligible_of self rows }
    {
        if self.crew == 0 {
            return rows & !sets::below(self.from);
        }
        rows
    }

    // Whether the crew being filled is full and cannot be closed: nothing further fits.
    fn stuck(self, task: u32, size: u32, least: u32) -> bool
        ensures { result ≡ stuck task size least self }
    {
        if self.closes(task, least) {
            return false;
        }
        sets::size(self.crew) >= size
    }

    // The crews as a complete list.
    fn complete(self, units: u32) -> Filled
        ensures { result ≡ filled_with Complete self.crews units }
    {
        let crews = self.crews;
        Filled {
            crews,
            units,
            ending: Ending::Complete,
        }
    }
}

impl Filled {
    // No list, for one reason or the other.
    fn without_crews(ending: Ending, units: u32) -> Filled
        ensures { result ≡ filled_with ending no_crews units }
    {
        Filled {
            crews: [0; Policy::CREWS],
            units,
            ending,
        }
    }
}

// What of the task is not held.
fn missing(task: u32, held: u32) -> u32
    ensures { result ≡ bit_xor task (bit_and task held) }
{
    task ^ (task & held)
}

// The free rows that hold the lowest permission missing, none if it is past the array's end; all of them where nothing is missing, since
// the crew then wants a companion.
fn candidates(holders: &[u64], missing: u32, free: u64) -> u64
    ensures { result ≡ pool_of (at holders.now) missing free }
{
    if missing == 0 {
        return free;
    }
    let permission = sets::lowest(missing) as usize;
    if permission >= holders.len() {
        return 0;
    }
    holders[permission] & free
}

impl Wanted {
    // One placement: the row in the crew being filled, and filling goes on from there. `spent` has the placement's unit already.
    #[cycle(go_on_try_each)]
    fn go_on(&self, before: Filling, row: usize, spent: u32) -> Filled
        requires { Placing self.now.crews self.now.size before row spent self.now.allowance }
        ensures { result ≡ filled_of self.now.allowance spent (search (ones before.free - 1) (rule_of self.now) (placed_of (rule_of self.now) before row)) }
    {
        let placed = before.place(row, self.holds[row]);
        if placed.stuck(self.task, self.size, self.least) {
            return Filled::without_crews(Ending::Exhausted, spent);
        }
        self.try_each(placed, spent)
    }

    // Each candidate in turn, from the state just placed. The crew is closed here and not where the row was placed, so that no copy of the crews
    // follows at once on the write into them.
    #[cycle(go_on_try_each)]
    fn try_each(&self, placed: Filling, spent: u32) -> Filled
        requires { Ready self.now.task self.now.crews self.now.size self.now.least placed spent self.now.allowance }
        ensures { result ≡ filled_of self.now.allowance spent (search (ones placed.free) (rule_of self.now) (closed_where self.now.task self.now.least placed)) }
    {
        let f = placed.settled(self.task, self.least);
        if f.closed == self.crews {
            return f.complete(spent);
        }
        let wanted = f.eligible(candidates(&self.holders, missing(self.task, f.held), f.free));
        let mut units = spent;
        for row in Members::of(wanted) {
            if units >= self.allowance {
                return Filled::without_crews(Ending::Undecided, self.allowance);
            }
            let filled = self.go_on(f, row, units + 1);
            let Ending::Exhausted = filled.ending else {
                return filled;
            };
            units = filled.units;
        }
        Filled::without_crews(Ending::Exhausted, units)
    }

    // The crews filled from the free rows, where `spent` units are spent already. Crews for no permission, and more of them than a reply has room for,
    // are not looked for; crews of no rows cover nothing.
    pub fn fill(&self, free: u64, spent: u32) -> Filled
        ensures value { result ≡ filled_of self.now.allowance spent (found_from (rule_of self.now) free) }
        ensures kept { self.exit.now ≡ self.entry.now }
    {
        let Wanted {
            task,
            crews,
            size,
            allowance,
            ..
        } = *self;
        if spent > allowance {
            return Filled::without_crews(Ending::Undecided, allowance);
        }
        if task == 0 {
            return Filled::without_crews(Ending::Exhausted, spent);
        }
        if crews > Policy::CREWS {
            return Filled::without_crews(Ending::Exhausted, spent);
        }
        if size == 0 && crews != 0 {
            return Filled::without_crews(Ending::Exhausted, spent);
        }
        self.try_each(Filling::begin(free), spent)
    }
}

// Each row's holdings within the task. A row past the count holds nothing.
pub fn holdings_within(table: Table, task: u32) -> [u32; Policy::ROWS]
    ensures { result ≡ tabulate row_limit (holds_of table task) }
{
    let holdings = table.holdings;
    let rows = table.rows;
    let mut within = [0u32; Policy::ROWS];
    for row in 0..rows.min(Policy::ROWS) {
        within[row] = holdings[row] & task;
    }
    within
}

// The rows that hold the permission.
fn holders_at(holds: &[u32; Policy::ROWS], permission: usize) -> u64
    requires { permission < 32 }
    ensures { result ≡ holders_of (at holds.now) permission }
{
    let mut set: u64 = 0;
    for row in 0..Policy::ROWS {
        if (holds[row] >> permission) & 1 == 1 {
            set |= 1u64 << row;
        }
    }
    set
}

// For each permission the rows that hold it.
pub fn holders_of(holds: &[u32; Policy::ROWS]) -> [u64; 32]
    ensures value { result ≡ tabulate 32 (holders_of (at holds.now)) }
    ensures kept { holds.exit.now ≡ holds.entry.now }
{
    let mut holders = [0u64; 32];
    for permission in 0..32 {
        holders[permission] = holders_at(holds, permission);
    }
    holders
}

// The reply that a filling comes to.
fn reply_of(filled: Filled) -> Reply
    ensures { result ≡ replied_of filled }
{
    match filled.ending {
        Ending::Complete => Reply::crews(filled.crews, filled.units),
        Ending::Exhausted => Reply::none(filled.units),
        Ending::Undecided => Reply::undecided(filled.units),
    }
}

// Which crews are left with these rows absent: the first list, none, or undecided, and the units it took. How many may be away plays no part.
pub fn ask_named(table: Table, policy: Policy, absent: u64, allowance: u32) -> Reply
    ensures { NamedReplyFor table policy absent allowance result }
{
    let rows = table.rows;
    if let Err(refusal) = roster::named_ruling(rows, policy, absent) {
        return Reply::refused(refusal);
    }
    let holds = holdings_within(table, policy.task);
    let holders = holders_of(&holds);
    let wanted = Wanted {
        holds,
        holders,
        task: policy.task,
        crews: policy.crews,
        size: policy.size,
        least: roster::least_members(policy.edition),
        allowance,
    };
    reply_of(wanted.fill(sets::below(rows) & !absent, 0))
}
