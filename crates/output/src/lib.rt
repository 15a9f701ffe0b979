// What the programs say: so many bytes at the front of a buffer, to a stream. No clause can say what reaches a stream: of a write is known what std
// says of it.
#![tactic(auto)]

ghost use Rattle.std.specs.Prelude.{◌≡◌};
ghost use Rattle.text.specs.Text.{fitting};
ghost use Rattle.output.specs.Says.{errors, Says};

use std::io::Write;

// The streams by their numbers: standard output and standard error. No enum: `written` takes any number, and promises to answer for each.
pub const OUTPUT: i32 = 1;

pub const ERRORS: i32 = 2;

// What is to be written: so many bytes from the front of the buffer, to this stream.
#[derive(Clone, Copy)]
pub struct Said {
    pub stream: i32,
    pub length: usize,
}

// A complaint, which goes to standard error. What the buffer has no room for is left out.
pub fn complaint(words: &[u8], out: &mut [u8]) -> Said
    ensures said { Says errors (fitting words.now out.old 0) out.old out.new result }
    ensures kept { words.exit.now ≡ words.entry.now }
{
    let length = text::word(out, 0, words);
    Said {
        stream: ERRORS,
        length,
    }
}

// Writes what is said, all of the buffer where that has not so many bytes, and answers whether all of it was written. There is no other stream than the
// two that are lent here.
pub fn written<W: Write, E: Write>(output: &mut W, errors: &mut E, said: Said, out: &[u8]) -> bool
    ensures kept { out.exit.now ≡ out.entry.now }
{
    let text = out.get(..said.length).unwrap_or(out);
    match said.stream {
        OUTPUT => output.write_all(text).is_ok(),
        ERRORS => errors.write_all(text).is_ok(),
        _ => false,
    }
}
