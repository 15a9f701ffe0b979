// What is read of a table so far: its values, and where the reading stands.
use crate::{Trouble, What};
use roster::Policy;
use values::Values;

// The parts of a table, one after the other: a blank line ends the rows and the policies.
#[derive(Clone, Copy)]
pub(crate) enum Part {
    RowsHead,
    Rows,
    PoliciesHead,
    Policies,
    End,
}

// The current line: its number; how many of its cells count, and how many of these are codes; the numbers it has; the set of its marks, and the
// weight of the next one.
#[derive(Clone, Copy)]
pub(crate) struct Line {
    pub(crate) number: usize,
    pub(crate) cells: usize,
    pub(crate) listed: usize,
    pub(crate) staff: u32,
    pub(crate) person: u32,
    pub(crate) policy: Policy,
    pub(crate) marks: u32,
    pub(crate) weight: u32,
}

// What is read so far.
#[derive(Clone, Copy)]
pub(crate) struct Draft {
    pub(crate) values: Values,
    pub(crate) part: Part,
    pub(crate) line: Line,
}

impl Line {
    // Nothing of the line with this number.
    pub(crate) fn numbered(number: usize) -> Line {
        Line {
            number,
            cells: 0,
            listed: 0,
            staff: 0,
            person: 0,
            policy: Policy {
                task: 0,
                away: 0,
                crews: 0,
                size: 0,
                edition: 1,
            },
            marks: 0,
            weight: 1,
        }
    }
}

impl Draft {
    // Nothing yet.
    pub(crate) fn none() -> Draft {
        Draft {
            values: Values::none(),
            part: Part::RowsHead,
            line: Line::numbered(0),
        }
    }

    // This is wrong with a column of the current line; column 0 is all of it.
    pub(crate) fn wrong(&self, column: usize, what: What) -> Trouble {
        Trouble {
            line: self.line.number,
            column,
            what,
        }
    }
}
