// Standard input, line by line. Bytes are read one at a time, so that a line is answered as soon as it is whole and nothing behind it is taken.
ghost use Rattle.std.specs.Prelude.{◌≤◌};

use std::io;
use std::io::Read;

// A longer line is not understood.
const WIDTH: usize = 1000;

// How a line ended: with its newline, or with the input; or the input could not be read. Three ends, each with the line so far: no `Option` or `Result`.
#[derive(Clone, Copy)]
pub enum Ended {
    Newline,
    Input,
    Failed,
}

// The first `length` bytes are the line. Of one that is too long the front is kept. An array with its length and no `Vec`,
// which would let a line fail for want of memory.
#[derive(Clone, Copy)]
pub struct Line {
    bytes: [u8; WIDTH],
    length: usize,
    is_long: bool,
    ghost within: { length ≤ 1000 },
}

fn read_byte(from: &mut impl Read) -> io::Result<Option<u8>> {
    let mut room = [0u8; 1];
    Ok(match from.read(&mut room)? {
        0 => None,
        _ => Some(room[0]),
    })
}

impl Line {
    fn empty() -> Line {
        Line {
            bytes: [0; WIDTH],
            length: 0,
            is_long: false,
        }
    }

    // One byte more; where there is no room left for it, the line is too long.
    fn push(&mut self, byte: u8) {
        if self.length < WIDTH {
            self.bytes[self.length] = byte;
            self.length += 1;
        } else {
            self.is_long = true;
        }
    }

    // What was typed, unless it is too long.
    pub(crate) fn text(&self) -> Option<&[u8]> {
        if self.is_long {
            return None;
        }
        Some(&self.bytes[..self.length])
    }
}

// The next line, without its newline, and how it ended. The count of turns is one that no line uses up, since a proved loop has to end.
pub(crate) fn next_line(from: &mut impl Read) -> (Line, Ended) {
    let mut line = Line::empty();
    for _ in 0..u64::MAX {
        match read_byte(from) {
            Ok(Some(b'\n')) => return (line, Ended::Newline),
            Ok(Some(byte)) => line.push(byte),
            Ok(None) => return (line, Ended::Input),
            Err(_) => return (line, Ended::Failed),
        }
    }
    (line, Ended::Input)
}
