// Reading an input, as standard input, into a lent buffer, as the programs do that take a book or a table. Of a reader is known what std says of
// `read`; what is made of its answer is said here, read by read.
#![tactic(auto)]

ghost use Rattle.std.specs.Prelude.{◌≡◌, ◌+◌, ◌-◌, ◌≤◌, length, IfSome};
ghost use Rattle.input.specs.Input.{grown_by, after_read, Moved, OneRead, Settled};

use std::fs::File;
use std::io;
use std::io::Read;
use std::rt::Files;

// What is known of an input that can be read: that it is whole, with so many bytes at the front of the buffer; or that so many are there and more
// may follow.
#[derive(Clone, Copy)]
enum Progress {
    Whole(usize),
    More(usize),
}

// What so many bytes more say of the input, where there is room for so many in all.
fn grown_by(room: usize, have: usize, more: usize) -> Progress
    requires { have + more ≤ room }
    ensures { result ≡ grown_by room have more }
{
    if more == 0 {
        return Progress::Whole(have);
    }
    let there = have + more;
    if there < room {
        Progress::More(there)
    } else {
        Progress::Whole(there)
    }
}

// What a read's answer says, where so many bytes were there before it.
#[tactic(auto, unfolding(crate::specs::Input::after_read))]
fn after_read(room: usize, have: usize, got: io::Result<usize>) -> io::Result<Progress>
    requires { (have ≤ room) × Moved (room - have) got }
    ensures { result ≡ after_read room have got }
{
    let more = got?;
    Ok(grown_by(room, have, more))
}

// One read, behind the bytes that are there already, which stay as they are.
fn read_on<R: Read>(from: &mut R, buffer: &mut [u8], have: usize) -> io::Result<Progress>
    requires { have ≤ length buffer.old }
    ensures { OneRead have buffer.old buffer.new result }
{
    let room = buffer.len();
    let got = from.read(&mut buffer[have..]);
    after_read(room, have, got)
}

// Reads until the input is whole, in however many pieces it comes, and answers how many bytes it has. A full buffer is whole: the caller lends as
// many bytes as decide. A `loop`, as each read says whether there is another; a `for` would count turns that nothing asks for.
pub fn read_all<R: Read>(from: &mut R, buffer: &mut [u8]) -> io::Result<usize>
    ensures settled { Settled result buffer.new }
    ensures long { length buffer.new ≡ length buffer.old }
{
    let mut have = 0;
    loop {
        match read_on(from, buffer, have)? {
            Progress::Whole(size) => return Ok(size),
            Progress::More(more) => have = more,
        }
    }
}

// Reads until the input ends, a read fails or the buffer is full, and answers how many bytes came. A `while`, as each read says how far it steps.
pub fn read_full<R: Read>(from: &mut R, buffer: &mut [u8]) -> usize
    ensures within { result ≤ length buffer.new }
    ensures long { length buffer.new ≡ length buffer.old }
{
    let mut count = 0;
    while count < buffer.len() {
        match from.read(&mut buffer[count..]) {
            Ok(0) | Err(_) => return count,
            Ok(more) => count += more,
        }
    }
    count
}

// The same of a file; nothing where it cannot be opened.
pub fn read_file<F: Files>(files: &F, path: &str, buffer: &mut [u8]) -> Option<usize>
    ensures within { IfSome result (λ n. n ≤ length buffer.new) }
    ensures long { length buffer.new ≡ length buffer.old }
{
    let mut file = File::open(files, path).ok()?;
    Some(read_full(&mut file, buffer))
}
