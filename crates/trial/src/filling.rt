// Filling crews by the rules, plainly: half-filled crews are the list of the placements made so far.
ghost use Rattle.std.specs.Prelude.{◌≤◌};

use crate::plain::{Duty, PERMISSIONS, ROWS, contains};

// More steps than filling takes on so small a table: a count is plainer than a measure that says that taking back ends.
const STEPS: usize = 100000;

// By the rule the first rows of crews ascend; by the rule before any row began a crew.
#[derive(Clone, Copy, PartialEq, Eq)]
pub enum Rule {
    Ordered,
    Before,
}

// Which row went into which crew.
#[derive(Clone, Copy)]
pub struct Placement {
    pub row: usize,
    pub crew: usize,
}

// The placements made so far, in order; past their count stands nothing that matters. The crew being filled is the one numbered `closed`. At most six
// are made, and a heap that can run out would make every filling fail, so they stand in a fixed array.
#[derive(Clone, Copy)]
pub struct Placed {
    all: [Placement; ROWS],
    count: usize,
    closed: usize,
    ghost within: { count ≤ 6 },
}

// What filling came to: the placements of the list, where there is one, and how many were made on the way. There is none, too, where the steps allowed
// did not suffice, which is a fault of this program and is counted as a difference.
#[derive(Clone, Copy)]
pub struct Filled {
    pub list: Option<Placed>,
    pub units: u32,
}

impl Duty {
    // The lowest permission of the task that the crew does not hold.
    fn missing(&self, placed: &Placed, crew: usize) -> Option<usize> {
        (0..PERMISSIONS).find(|&p| self.wants(p) && !self.held(placed, crew, p))
    }

    // Whether a member of the crew holds permission p.
    fn held(&self, placed: &Placed, crew: usize, p: usize) -> bool {
        placed.made().iter().any(|placement| placement.crew == crew && self.holds(placement.row, p))
    }

    // Whether the row may be placed next: it holds the lowest permission missing, and keeps crews in order where they are to be. Where nothing is
    // missing but a companion, anyone is one.
    fn suits(&self, rule: Rule, placed: &Placed, missing: Option<usize>, row: usize) -> bool {
        match missing {
            Some(p) => self.has(row, p) && (rule == Rule::Before || placed.in_order(row)),
            None => true,
        }
    }

    // The first candidate from row `from` on: it is not absent, in no crew, and suits. There is none where the crew has as many rows as it may.
    fn candidate(
        &self,
        rule: Rule,
        absent: &[bool; ROWS],
        placed: &Placed,
        from: usize,
    ) -> Option<usize> {
        if placed.members(placed.closed) >= self.size {
            return None;
        }
        let missing = self.missing(placed, placed.closed);
        (from..self.rows).find(|&row| {
            !contains(absent, row) && !placed.has(row) && self.suits(rule, placed, missing, row)
        })
    }

    // Whether the crew covers the task and has as many rows as it has to.
    fn is_full(&self, placed: &Placed, crew: usize) -> bool {
        self.missing(placed, crew).is_none() && placed.members(crew) >= self.least()
    }

    // The row placed in the crew being filled, which is closed if it is full now.
    fn place(&self, placed: Placed, row: usize) -> Placed {
        let mut grown = placed.with(row);
        if self.is_full(&grown, grown.closed) {
            grown.closed = grown.closed.wrapping_add(1);
        }
        grown
    }

    // Fills the crews one after the other: the first candidate is placed and the next sought from the front, or, where there is none, the
    // last placement is taken back and the next sought behind it.
    pub(crate) fn fill(&self, rule: Rule, absent: &[bool; ROWS]) -> Filled {
        let mut placed = Placed::none();
        let mut from = 0;
        let mut units: u32 = 0;
        for _ in 0..STEPS {
            if placed.closed == self.crews {
                return Filled {
                    list: Some(placed),
                    units,
                };
            }
            if let Some(row) = self.candidate(rule, absent, &placed, from) {
                placed = self.place(placed, row);
                units = units.wrapping_add(1);
                from = 0;
            } else {
                let Some(last) = placed.last() else {
                    break;
                };
                from = last.row.wrapping_add(1);
                placed = placed.without_last();
            }
        }
        Filled { list: None, units }
    }
}

impl Placed {
    fn none() -> Placed {
        Placed {
            all: [Placement { row: 0, crew: 0 }; ROWS],
            count: 0,
            closed: 0,
        }
    }

    pub(crate) fn made(&self) -> &[Placement] {
        &self.all[..self.count]
    }

    // How many rows the crew has.
    fn members(&self, crew: usize) -> usize {
        self.made()
            .iter()
            .filter(|placement| placement.crew == crew)
            .count()
    }

    // The row placed first in the crew.
    fn first(&self, crew: usize) -> Option<usize> {
        let first = self.made().iter().find(|placement| placement.crew == crew)?;
        Some(first.row)
    }

    // Whether the row may be placed next: the first row placed in a crew comes behind the first of the crew before.
    fn in_order(&self, row: usize) -> bool {
        let Some(before) = self.closed.checked_sub(1) else {
            return true;
        };
        self.members(self.closed) != 0 || self.first(before).is_some_and(|first| first < row)
    }

    // Whether the row is in a crew.
    fn has(&self, row: usize) -> bool {
        self.made().iter().any(|placement| placement.row == row)
    }

    // One placement more, into the crew being filled.
    fn with(mut self, row: usize) -> Placed {
        if self.count < ROWS {
            self.all[self.count] = Placement {
                row,
                crew: self.closed,
            };
            self.count += 1;
        }
        self
    }

    fn last(&self) -> Option<Placement> {
        self.made().last().copied()
    }

    // The last placement taken back: the crew that it went into is being filled again.
    fn without_last(mut self) -> Placed {
        if self.count > 0 {
            self.count -= 1;
            self.closed = self.all[self.count].crew;
        }
        self
    }
}
