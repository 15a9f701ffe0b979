// The reader of the roster book, as cases ask it: `book BOOK`, which is good, with the places where its three sections start, or bad, with number
// and place; and `cuts B` and `cuts longest`, the two books cut at every byte.
use crate::cases::Outcome;
use crate::draft::Draft;
use crate::line::Line;

pub(crate) fn read(book: &[u8]) -> Line {
    match book::read(book) {
        Ok(starts) => {
            let (permissions, rows, policies) = (starts.permissions, starts.rows, starts.policies);
            Line::of(format_args!("good {permissions} {rows} {policies}"))
        }
        Err(refused) => bad(refused.fault.number(), refused.place),
    }
}

pub(crate) fn bad(number: u32, place: usize) -> Line {
    Line::of(format_args!("bad {number} {place}"))
}

// Where the count or the field starts that is not whole in an old book cut to this length. Its rows and its policies are counted at these places; codes
// have two bytes, numbers of rows four, and policies seven, of which the first four are one number.
fn cut_place(rows: usize, policies: usize, length: usize) -> usize {
    if length == 0 || length == rows || length == policies {
        return length;
    }
    if length < rows {
        return length - (length - 1) % 2;
    }
    if length < policies {
        return length - (length - rows - 1) % 4;
    }
    let within = (length - policies - 1) % 7;
    if within < 4 { length - within } else { length }
}

// One cut: 11 at this place.
fn cut(book: &[u8], place: usize) -> Outcome {
    let mut came = read(book);
    let same = came.bytes() == bad(11, place).bytes();
    let length = book.len();
    write!(came, " for the first {length} bytes");
    Outcome::one(same, came)
}

// A book cut at every byte, whose rows and policies are counted at these places: the lengths are what is counted, and no index.
fn cuts_of(book: &[u8], rows: usize, policies: usize) -> Outcome {
    let mut outcome = Outcome::none();
    for length in 0..book.len() {
        outcome.add(cut(&book[..length], cut_place(rows, policies, length)));
    }
    outcome
}

// The book that is called so, cut at every byte.
pub(crate) fn cuts(name: &str) -> Outcome {
    if name == "longest" {
        return cuts_of(Draft::longest().book(), 65, 578);
    }
    cuts_of(Draft::b().book(), 5, 38)
}
