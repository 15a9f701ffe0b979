// The program: a table from standard input, as a spreadsheet saves it, and its roster book to standard output. Where there is none, nothing but one
// line on standard error, which says what is wrong with the table and where. Which books are made of which tables is said in `table`, and which bytes
// go to which stream in specs/Said; the words are this program's and no part of that.
#![tactic(auto)]

mod words;

ghost use Rattle.std.specs.Prelude.{◌≤◌, length};
ghost use Rattle.input.specs.Input.{Settled};
ghost use Rattle.values.specs.Writing.{longest};
ghost use Rattle.table.specs.Understood.{understood};
ghost use Rattle.table.specs.Making.{BookOf};
ghost use Rattle.make.specs.Said.{BookOfInput, Tells};

use output::Said;
use std::io;
use table::NotMade;

// No complaint is longer: two numbers of at most twenty digits, and fewer than 200 bytes besides. No book is longer either.
const ROOM: usize = 2000;

// What is said of a whole input: the book of the table, or what is wrong with it.
fn made(table: &[u8], out: &mut [u8]) -> Said
    requires { longest ≤ length out.old }
    ensures { Tells (BookOf (understood table.now)) out.new result }
{
    match table::make(table, out) {
        Ok(length) => Said {
            stream: output::OUTPUT,
            length,
        },
        Err(NotMade::Wrong(trouble)) => Said {
            stream: output::ERRORS,
            length: words::line(out, trouble),
        },
        Err(NotMade::TooShort) => Said {
            stream: output::ERRORS,
            length: 0,
        },
    }
}

// What is said of the input that was read.
fn answer(table: &[u8], input: io::Result<usize>, out: &mut [u8]) -> Said
    requires { Settled input table.now × (longest ≤ length out.old) }
    ensures { Tells (BookOfInput table.now input) out.new result }
{
    let Ok(size) = input else {
        return output::complaint(b"book: standard input cannot be read\n", out);
    };
    made(&table[..size], out)
}

// `sheet`, `show` and `make` have mains alike. One for all three is no plainer: it would take two lengths, two complaints and `answer` as a closure, with
// all that `answer` asks and promises said once more.
fn main(rt: HostRuntime) {
    let mut table = [0u8; table::ENOUGH];
    let input = input::read_all(&mut rt.stdin(), &mut table);
    let mut out = [0u8; ROOM];
    let said = answer(&table, input, &mut out);
    if !output::written(&mut rt.stdout(), &mut rt.stderr(), said, &out) {
        let sorry = output::complaint(b"book: the output cannot be written\n", &mut out);
        output::written(&mut rt.stdout(), &mut rt.stderr(), sorry, &out);
    }
}
