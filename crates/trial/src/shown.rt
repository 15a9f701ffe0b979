// A question and a reply as text, written as the cases of the program `edges` are: TABLE, then P;s,d,t, and `;2` behind it
// by the second edition. Sets are lists of persons; `-` is an empty one. `edges` has writers of the same form: a library for two programs of which this
// one is to be independent is no plainer.
use crate::compare::Difference;
use crate::known::{LISTED, Wanted};
use crate::question;
use crate::question::Question;
use accounts::Accounts;
use std::fmt;

// The rows of a set, joined by commas.
#[derive(Clone, Copy)]
struct Set(u64);

// The crews up to the last that is not empty, joined by slashes.
#[derive(Clone, Copy)]
struct Crews([u64; LISTED]);

// A space, then the holdings and the person number of the rows, joined by commas.
#[derive(Clone, Copy)]
struct Table(Accounts);

impl fmt::Display for Set {
    fn fmt<W: fmt::Write>(&self, f: &mut fmt::Formatter<W>) -> fmt::Result {
        if self.0 == 0 {
            return f.write_str("-");
        }
        let mut before = "";
        // a filter is no plainer: in its closure nothing says that the row may be shifted by
        for row in 0..64u32 {
            if self.0 >> row & 1 == 1 {
                write!(f, "{before}{row}")?;
                before = ",";
            }
        }
        Ok(())
    }
}

impl fmt::Display for Crews {
    fn fmt<W: fmt::Write>(&self, f: &mut fmt::Formatter<W>) -> fmt::Result {
        let last = self.0.iter().rposition(|crew| *crew != 0).unwrap_or(0);
        Set(self.0[0]).fmt(f)?;
        for crew in self.0.iter().skip(1).take(last) {
            write!(f, "/{}", Set(*crew))?;
        }
        Ok(())
    }
}

impl fmt::Display for Table {
    fn fmt<W: fmt::Write>(&self, f: &mut fmt::Formatter<W>) -> fmt::Result {
        if self.0.rows == 0 {
            return f.write_str(" -");
        }
        let mut before = ' ';
        for (held, person) in self
            .0
            .holdings
            .iter()
            .zip(self.0.persons.iter())
            .take(self.0.rows)
        {
            write!(f, "{before}{held}:{person}")?;
            before = ',';
        }
        Ok(())
    }
}

// Verdict, units, crews and blocker.
impl fmt::Display for Wanted {
    fn fmt<W: fmt::Write>(&self, f: &mut fmt::Formatter<W>) -> fmt::Result {
        let Wanted { answer, units, .. } = self;
        write!(
            f,
            "{answer} {units} {} {}",
            Crews(self.crews),
            Set(self.blocker)
        )
    }
}

impl fmt::Display for Question {
    fn fmt<W: fmt::Write>(&self, f: &mut fmt::Formatter<W>) -> fmt::Result {
        let asked = &self.asked;
        write!(f, "{}{} ", self.asking, Table(asked.accounts))?;
        write!(
            f,
            "{};{},{},{}",
            asked.task, self.away, asked.crews, asked.size
        )?;
        if asked.edition != 1 {
            write!(f, ";{}", asked.edition)?;
        }
        if let Some(absent) = self.absent {
            write!(f, " absent {}", Set(absent))?;
        }
        if self.allowance != question::AMPLE {
            write!(f, " with {}", self.allowance)?;
        }
        Ok(())
    }
}

impl fmt::Display for Difference {
    fn fmt<W: fmt::Write>(&self, f: &mut fmt::Formatter<W>) -> fmt::Result {
        let Difference {
            question,
            wanted,
            came,
        } = self;
        write!(f, "  first: {question} = {wanted}\n  came: {came}")
    }
}
