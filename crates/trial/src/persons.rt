// Two accounts, one person: the merging by the rules, plainly. Rows that have one owner are one person, who holds what any of them holds; persons are
// numbered in the order of their first rows.
use crate::plain::{Duty, PERMISSIONS, ROWS};

// A duty whose rows are accounts, and the owner of each row.
#[derive(Clone, Copy)]
pub struct Staff {
    pub accounts: Duty,
    pub owner: [usize; ROWS],
}

// Each row has an owner of its own.
const OWN: [usize; ROWS] = [0, 1, 2, 3, 4, 5];

pub(crate) fn own(accounts: Duty) -> Staff {
    Staff {
        accounts,
        owner: OWN,
    }
}

impl Staff {
    // The first row that has the same owner as this one.
    fn first_row(&self, row: usize) -> Option<usize> {
        let owner = self.owner.get(row)?;
        self.owner.iter().position(|other| other == owner)
    }

    // How many persons the rows before this one have.
    fn persons_before(&self, row: usize) -> usize {
        (0..row).filter(|&u| self.first_row(u) == Some(u)).count()
    }

    // The number of the row's person: how many have their first row before his.
    fn person(&self, row: usize) -> Option<usize> {
        let first = self.first_row(row)?;
        Some(self.persons_before(first))
    }

    // Whether an account of the person holds permission p.
    fn holds(&self, person: usize, p: usize) -> bool {
        (0..self.accounts.rows).any(|row| self.person(row) == Some(person)
            && self.accounts.holds(row, p))
    }

    // The same duty, asked of the persons.
    pub(crate) fn merged(&self) -> Duty {
        Duty {
            rows: self.persons_before(self.accounts.rows),
            cells: std::array::from_fn(|i| self.holds(i / PERMISSIONS, i % PERMISSIONS)),
            ..self.accounts
        }
    }
}
