// Why a named absence blocks, as cases ask it: `why TABLE POLICY absent PERSONS`, written as the other questions are. An answer is the reason, 1, 2
// or 3, or `nothing`, `undecided` or `refused:N`; the permission of reason 1 as bit number, else `-`; and the units.
use crate::asked::Asked;
use crate::line::Line;
use reasons::{Explained, Explanation};
use std::fmt;

// The reason, or why there is none.
#[derive(Clone, Copy)]
struct Reason(Explanation);

// All of an answer.
#[derive(Clone, Copy)]
pub struct Told(pub Explained);

impl fmt::Display for Reason {
    fn fmt<W: fmt::Write>(&self, f: &mut fmt::Formatter<W>) -> fmt::Result {
        match self.0 {
            Explanation::Nothing => f.write_str("nothing"),
            Explanation::Undecided => f.write_str("undecided"),
            Explanation::Refused(refusal) => write!(f, "refused:{}", refusal.number()),
            why => write!(f, "{}", why.number()),
        }
    }
}

impl fmt::Display for Told {
    fn fmt<W: fmt::Write>(&self, f: &mut fmt::Formatter<W>) -> fmt::Result {
        let Explained { why, units } = self.0;
        match why {
            Explanation::Scarce(permission) => write!(f, "{} {permission} {units}", Reason(why)),
            _ => write!(f, "{} - {units}", Reason(why)),
        }
    }
}

// How many may be away plays no part here.
pub(crate) fn why(text: &[u8]) -> Line {
    let asked = Asked::read(text);
    let explained = reasons::why(asked.accounts, asked.policy, asked.absent, asked.allowance);
    Line::of(Told(explained))
}
