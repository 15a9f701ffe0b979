// The live roster: 64 places that take hire, leave, grant and revoke, and beside the holdings, for each permission, the set of places that hold
// it. A roster goes by value in and out. What each call makes of any roster stands in specs/Changes, the plain list that it is held to in
// specs/Plain, and the theorem over any sequence of calls in specs/Laws/Always.
#![tactic(auto)]

ghost use Rattle.std.specs.Prelude.{◌≡◌, ◌<◌};
ghost use Rattle.roster.specs.Limits.{row_limit};
ghost use Rattle.absences.specs.Asked.{PolicyReplyFor};
ghost use Rattle.crews.specs.Named.{NamedReplyFor};
ghost use Rattle.live.specs.Numbers.{objection_number};
ghost use Rattle.live.specs.Changes.{hire, leave, grant, revoke, told_of, empty, refusing, done, gathered_of, table_of};
ghost use Rattle.live.specs.Changes.{place_of, free_in, hired_at, cleared_of, left_at, granted_at, revoked_at, turned_at, changed_by};

pub use absences::Way;
use roster::{Policy, Reply, Table};

// Who stands at which place: bit i of `occupied` says that place i is taken. A place that is not has staff number 0 and holdings 0, and stands
// in no set of `holders`. The arrays stay beside each other, since `Agrees` and the calls of specs/Changes speak of each by its name.
#[derive(Clone, Copy)]
pub struct Roster {
    pub occupied: u64,
    pub staff: [u32; Policy::ROWS],
    pub holdings: [u32; Policy::ROWS],
    pub holders: [u64; 32],
}

// Why a call is refused. `number` gives the number that is published for each.
#[derive(Clone, Copy, Debug, PartialEq, Eq)]
pub enum Objection {
    Permission,
    Nobody,
    Present,
    Full,
}

// The roster after a call, and what the call answers: the place that it concerned, or why nothing was done.
#[derive(Clone, Copy)]
pub struct Told {
    pub roster: Roster,
    pub outcome: Result<usize, Objection>,
}

impl Objection {
    // The published number.
    pub fn number(self) -> u32
        ensures { result ≡ objection_number self }
    {
        match self {
            Objection::Permission => 21,
            Objection::Nobody => 22,
            Objection::Present => 23,
            Objection::Full => 24,
        }
    }
}

// The lowest place that is not occupied; 64 if there is none.
fn free_place(occupied: u64) -> usize
    ensures { result ≡ free_in occupied }
{
    sets::least(!occupied) as usize
}

// The sets of holders without this place.
fn cleared(mut holders: [u64; 32], place: usize) -> [u64; 32]
    requires { place < row_limit }
    ensures { result ≡ cleared_of place holders }
{
    for set in holders.iter_mut() {
        *set &= !(1u64 << place);
    }
    holders
}

// What the array has at the occupied places, one after the other, and 0 past their number.
fn gathered(from: &[u32; Policy::ROWS], occupied: u64) -> [u32; Policy::ROWS]
    ensures { result ≡ gathered_of occupied from.now }
{
    let mut next = [0; Policy::ROWS];
    let mut rest = occupied;
    for row in 0..sets::size(occupied) as usize {
        let place = sets::least(rest) as usize;
        next[row] = from[place];
        rest ^= 1u64 << place;
    }
    next
}

impl Roster {
    // Nobody anywhere.
    pub fn empty() -> Roster
        ensures { result ≡ empty }
    {
        Roster {
            occupied: 0,
            staff: [0; Policy::ROWS],
            holdings: [0; Policy::ROWS],
            holders: [0; 32],
        }
    }

    // Where this staff number stands; were there several, the lowest place.
    fn place_of(&self, number: u32) -> Option<usize>
        ensures { result ≡ place_of self.now number }
    {
        for (place, staff) in self.staff.iter().enumerate() {
            if (self.occupied >> place) & 1 == 1 && *staff == number {
                return Some(place);
            }
        }
        None
    }

    // The call is refused, and nothing changes.
    fn refusing(self, objection: Objection) -> Told
        ensures { result ≡ refusing objection self }
    {
        Told {
            roster: self,
            outcome: Err(objection),
        }
    }

    // The call is done, and this is the roster now.
    fn done(self, place: usize) -> Told
        ensures { result ≡ done place self }
    {
        Told {
            roster: self,
            outcome: Ok(place),
        }
    }

    // This staff number at this place, with no holdings. Each change below asks for a place below the limit, and for a permission below 32, by itself: types
    // for such places and permissions would be no plainer, as a place comes from `place_of` or `free_place` and goes into `Told` as a number, and a
    // permission is tested once and handed on.
    fn hired(mut self, place: usize, number: u32) -> Roster
        requires { place < row_limit }
        ensures { result ≡ hired_at place number self }
    {
        self.occupied |= 1u64 << place;
        self.staff[place] = number;
        self.holdings[place] = 0;
        self
    }

    // Nobody at this place, and so none of its holdings.
    fn left(mut self, place: usize) -> Roster
        requires { place < row_limit }
        ensures { result ≡ left_at place self }
    {
        self.occupied &= !(1u64 << place);
        self.staff[place] = 0;
        self.holdings[place] = 0;
        self.holders = cleared(self.holders, place);
        self
    }

    // Whoever is at this place with this permission.
    fn granted(mut self, place: usize, permission: usize) -> Roster
        requires { (place < row_limit) × (permission < 32) }
        ensures { result ≡ granted_at place permission self }
    {
        self.holdings[place] |= 1u32 << permission;
        self.holders[permission] |= 1u64 << place;
        self
    }

    // Whoever is at this place without this permission.
    fn revoked(mut self, place: usize, permission: usize) -> Roster
        requires { (place < row_limit) × (permission < 32) }
        ensures { result ≡ revoked_at place permission self }
    {
        self.holdings[place] &= !(1u32 << permission);
        self.holders[permission] &= !(1u64 << place);
        self
    }

    // Whoever is at this place with this permission, or without it.
    fn turned(self, place: usize, permission: usize, granting: bool) -> Roster
        requires { (place < row_limit) × (permission < 32) }
        ensures { result ≡ turned_at granting place permission self }
    {
        if granting {
            self.granted(place, permission)
        } else {
            self.revoked(place, permission)
        }
    }

    // This staff number takes the lowest free place, with no holdings.
    pub fn hire(self, number: u32) -> Told
        ensures { result ≡ told_of self (hire number) }
    {
        if self.place_of(number).is_some() {
            return self.refusing(Objection::Present);
        }
        if self.occupied == !0u64 {
            return self.refusing(Objection::Full);
        }
        let place = free_place(self.occupied);
        self.hired(place, number).done(place)
    }

    // This staff number leaves its place, which can then be taken again.
    pub fn leave(self, number: u32) -> Told
        ensures { result ≡ told_of self (leave number) }
    {
        match self.place_of(number) {
            Some(place) => self.left(place).done(place),
            None => self.refusing(Objection::Nobody),
        }
    }

    // Whoever has this staff number, with this permission or without it.
    fn changed(self, number: u32, permission: u32, granting: bool) -> Told
        ensures { result ≡ changed_by granting number permission self }
    {
        if permission > 31 {
            return self.refusing(Objection::Permission);
        }
        // a copy is asked: what was borrowed is copied once more when it is handed on, on a refusal before this too
        let seen = self;
        match seen.place_of(number) {
            Some(place) => self
                .turned(place, permission as usize, granting)
                .done(place),
            None => self.refusing(Objection::Nobody),
        }
    }

    // This staff number holds this permission from now on.
    #[tactic(auto, unfolding(crate::specs::Changes::told_of))]
    pub fn grant(self, number: u32, permission: u32) -> Told
        ensures { result ≡ told_of self (grant number permission) }
    {
        self.changed(number, permission, true)
    }

    // This staff number does not hold this permission from now on.
    #[tactic(auto, unfolding(crate::specs::Changes::told_of))]
    pub fn revoke(self, number: u32, permission: u32) -> Told
        ensures { result ≡ told_of self (revoke number permission) }
    {
        self.changed(number, permission, false)
    }

    // The table of the occupied places, in place order: replies speak of its rows.
    pub fn table(self) -> Table
        ensures { result ≡ table_of self }
    {
        Table {
            holdings: gathered(&self.holdings, self.occupied),
            rows: sets::size(self.occupied) as usize,
        }
    }

    // The staff number of each row of that table.
    pub fn numbers(self) -> [u32; Policy::ROWS]
        ensures { result ≡ gathered_of self.occupied self.staff }
    {
        gathered(&self.staff, self.occupied)
    }
}

// A policy asked of the roster's table, by this search.
pub fn ask(way: Way, roster: Roster, policy: Policy, allowance: u32) -> Reply
    ensures { PolicyReplyFor way (table_of roster) policy allowance result }
{
    absences::ask(way, roster.table(), policy, allowance)
}

// A named absence asked of the roster's table: `absent` is a set of that table's rows.
pub fn ask_named(roster: Roster, policy: Policy, absent: u64, allowance: u32) -> Reply
    ensures { NamedReplyFor (table_of roster) policy absent allowance result }
{
    crews::ask_named(roster.table(), policy, absent, allowance)
}
