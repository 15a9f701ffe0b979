// The program: a roster book from standard input, its table to standard output, or the `bad` line that its sheet has. If the input cannot be read or
// the table cannot be written, a line on standard error says so. All that can be right or wrong of the table is said in `table`, and which bytes go to
// which stream in specs/Said.
#![tactic(auto)]

ghost use Rattle.std.specs.Prelude.{◌≤◌, length};
ghost use Rattle.table.specs.Shown.{longest};
ghost use Rattle.input.specs.Input.{Settled};
ghost use Rattle.output.specs.Says.{Says};
ghost use Rattle.show.specs.Said.{stream_of, text_of};

use output::Said;
use std::io;
use table::Shown;

// What is said of the input that was read: what is shown of a whole one, else a complaint.
fn answer(book: &[u8], input: io::Result<usize>, out: &mut [u8]) -> Said
    requires { Settled input book.now × (longest ≤ length out.old) }
    ensures { Says (stream_of input) (text_of book.now input) out.old out.new result }
{
    let Ok(size) = input else {
        return output::complaint(b"book: standard input cannot be read\n", out);
    };
    let length = match table::show(&book[..size], out) {
        Ok(Shown::Table(length)) => length,
        Ok(Shown::Bad(length)) => length,
        Err(_) => 0,
    };
    Said {
        stream: output::OUTPUT,
        length,
    }
}

// Like that of `make`, which says why there is none for all three.
fn main(rt: HostRuntime) {
    let mut book = [0u8; lines::ENOUGH];
    let input = input::read_all(&mut rt.stdin(), &mut book);
    let mut out = [0u8; table::LONGEST];
    let said = answer(&book, input, &mut out);
    if !output::written(&mut rt.stdout(), &mut rt.stderr(), said, &out) {
        let sorry = output::complaint(b"book: the output cannot be written\n", &mut out);
        output::written(&mut rt.stdout(), &mut rt.stderr(), sorry, &out);
    }
}
