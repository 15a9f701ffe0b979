// The program: a roster book from standard input, its sheet to standard output; if the input cannot be read or the sheet cannot be written, a line
// on standard error that says so. All that can be right or wrong of the sheet is said in `lines`, what a read's answer means in `input`, and which
// bytes go to which stream in specs/Said. `main` does just that.
#![tactic(auto)]

ghost use Rattle.std.specs.Prelude.{◌≤◌, length};
ghost use Rattle.lines.specs.Sheet.{longest};
ghost use Rattle.input.specs.Input.{Settled};
ghost use Rattle.output.specs.Says.{Says};
ghost use Rattle.sheet.specs.Said.{stream_of, text_of};

use output::Said;
use std::io;

// What is said of the input that was read: the sheet of a whole one, else a complaint.
fn answer(book: &[u8], input: io::Result<usize>, out: &mut [u8]) -> Said
    requires { Settled input book.now × (longest ≤ length out.old) }
    ensures { Says (stream_of input) (text_of book.now input) out.old out.new result }
{
    let Ok(size) = input else {
        return output::complaint(b"sheet: standard input cannot be read\n", out);
    };
    let length = lines::sheet(&book[..size], out).unwrap_or(0);
    Said {
        stream: output::OUTPUT,
        length,
    }
}

// Like that of `make`, which says why there is none for all three.
fn main(rt: HostRuntime) {
    let mut book = [0u8; lines::ENOUGH];
    let input = input::read_all(&mut rt.stdin(), &mut book);
    let mut out = [0u8; lines::LONGEST];
    let said = answer(&book, input, &mut out);
    if !output::written(&mut rt.stdout(), &mut rt.stderr(), said, &out) {
        let sorry = output::complaint(b"sheet: the output cannot be written\n", &mut out);
        output::written(&mut rt.stdout(), &mut rt.stderr(), sorry, &out);
    }
}
