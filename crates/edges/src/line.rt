// What came, as text: it is held against what was wanted.
use arrayvec::ArrayVec;
use roster::{Reply, Verdict};
use std::fmt;

// As many bytes of what came are told at most, and what has so many is nothing that is wanted: more may be cut off.
pub const TOLD: usize = 512;

// What came, or what is told of it: as much as there is room for. It is bytes, as the line of a file, which need not be text, is told with it.
#[derive(Drop)]
pub struct Line {
    bytes: ArrayVec<u8, TOLD>,
}

impl Line {
    // Nothing yet.
    pub(crate) fn empty() -> Line {
        Line {
            bytes: ArrayVec::new(),
        }
    }

    // What the value prints.
    pub(crate) fn of<D: fmt::Display + Drop>(value: D) -> Line {
        let mut line = Line::empty();
        line.write_fmt(value);
        line
    }

    // What `write!` calls: no text here fails to be printed, and what there is no room for is left out.
    pub(crate) fn write_fmt<D: fmt::Display + Drop>(&mut self, value: D) {
        let _ = fmt::Write::write(self, value);
    }

    // The bytes, as many as there is room for, behind the others.
    pub(crate) fn put(&mut self, bytes: &[u8]) {
        let count = self.bytes.remaining_capacity().min(bytes.len());
        let _fits = self.bytes.try_extend_from_slice(&bytes[..count]);
    }

    pub(crate) fn bytes(&self) -> &[u8] {
        self.bytes.as_slice()
    }
}

// An `ArrayString` takes a piece whole or not at all: here its front is taken.
impl fmt::Write for Line {
    fn write_str(&mut self, s: &str) -> fmt::Result {
        self.put(s.as_bytes());
        Ok(())
    }
}

// A set: its rows, joined by commas; `-` for the empty one.
#[derive(Clone, Copy)]
pub struct Set(pub u64);

// The crews up to the last that is not empty, joined by slashes.
#[derive(Clone, Copy)]
struct Crews([u64; 8]);

// A verdict, with this mark before the number of a refusal.
#[derive(Clone, Copy)]
pub struct Judged(pub Verdict, pub char);

// All of a reply: verdict, units, crews, blocker.
#[derive(Clone, Copy)]
pub struct Replied(pub Reply);

// The same with sets as masks, all eight crews, and the sites, which are 0 here, before the blocker.
#[derive(Clone, Copy)]
pub struct Masks(pub Reply);

impl fmt::Display for Set {
    fn fmt<W: fmt::Write>(&self, f: &mut fmt::Formatter<W>) -> fmt::Result {
        if self.0 == 0 {
            return f.write_str("-");
        }
        let mut before = "";
        // a filter is no plainer: in its closure nothing says that the row may be shifted by
        for row in 0..64u32 {
            if self.0 >> row & 1 == 1 {
                write!(f, "{before}{row}")?;
                before = ",";
            }
        }
        Ok(())
    }
}

impl fmt::Display for Crews {
    fn fmt<W: fmt::Write>(&self, f: &mut fmt::Formatter<W>) -> fmt::Result {
        let last = self.0.iter().rposition(|crew| *crew != 0).unwrap_or(0);
        write!(f, "{}", Set(self.0[0]))?;
        for crew in self.0.iter().skip(1).take(last) {
            write!(f, "/{}", Set(*crew))?;
        }
        Ok(())
    }
}

impl fmt::Display for Judged {
    fn fmt<W: fmt::Write>(&self, f: &mut fmt::Formatter<W>) -> fmt::Result {
        match self.0 {
            Verdict::Yes => f.write_str("yes"),
            Verdict::No => f.write_str("no"),
            Verdict::Undecided => f.write_str("undecided"),
            Verdict::Crews => f.write_str("crews"),
            Verdict::None => f.write_str("none"),
            Verdict::Refused(refusal) => write!(f, "refused{}{}", self.1, refusal.number()),
        }
    }
}

impl fmt::Display for Replied {
    fn fmt<W: fmt::Write>(&self, f: &mut fmt::Formatter<W>) -> fmt::Result {
        let Reply {
            verdict,
            crews,
            blocker,
            units,
        } = self.0;
        write!(
            f,
            "{} {units} {} {}",
            Judged(verdict, ' '),
            Crews(crews),
            Set(blocker)
        )
    }
}

impl fmt::Display for Masks {
    fn fmt<W: fmt::Write>(&self, f: &mut fmt::Formatter<W>) -> fmt::Result {
        let Reply {
            verdict,
            crews,
            blocker,
            units,
        } = self.0;
        write!(f, "{} {units}", Judged(verdict, ':'))?;
        let mut before = ' ';
        for crew in crews {
            write!(f, "{before}{crew}")?;
            before = ',';
        }
        write!(f, " 0 {blocker}")
    }
}
