// The book as a table that a spreadsheet opens and saves. specs/Table says which text a book's values have and specs/Shown what is shown of a book;
// specs/Understood says as which text any table is understood, and specs/Making what is made of it.
#![tactic(auto)]

mod cells;
mod draft;
mod fit;
mod parse;
mod plain;
mod policies;
mod put;
mod rows;

ghost use Rattle.std.specs.Prelude.{◌≡◌, true};
ghost use Rattle.table.specs.Shown.{longest, Shows};
ghost use Rattle.table.specs.Understood.{tidy};
ghost use Rattle.table.specs.declared.NotMade.TheVariants.{Wrong};
ghost use Rattle.table.specs.declared.What.TheVariants.{NotUnderstood};
ghost use Rattle.table.specs.Making.{enough, whole, BookOf, MakesOf, Makes};

use lines::TooShort;
use put::put_table;
use values::Values;

// No book's table is longer: a heading and 64 rows of at most 205 and 86 bytes, an empty line, a heading and 32 policies of at most 206 and 74.
pub const LONGEST: usize = 8284;
// So many bytes of a table decide: one more than a table may have.
pub const ENOUGH: usize = 65537;

// One byte more, to tell a text that is too long.
const ROOM: usize = 8285;

// What is shown of a book: so many bytes at the front of the buffer are its table; or they are the `bad` line of a refused book.
#[derive(Clone, Copy)]
pub enum Shown {
    Table(usize),
    Bad(usize),
}

// What is wrong with a table.
#[derive(Clone, Copy)]
pub enum What {
    // the whole table
    TooLong,
    NoTable,
    NoPolicies,
    // the rows' heading
    NoStaff,
    NoCode,
    CodeTwice,
    CodeOrder,
    NoPermission,
    TooManyPermissions,
    // a row
    Staff,
    StaffTwice,
    StaffOrder,
    Person,
    TooManyRows,
    NoGap,
    // the policies' heading
    NoAway,
    NoCrews,
    NoSize,
    EditionAlone,
    OtherPermission,
    PermissionOrder,
    PermissionMissing,
    ThirdHeading,
    // a policy
    Away,
    Crews,
    Size,
    Edition,
    NothingAsked,
    TooManyPolicies,
    // any line
    Mark,
    TooManyCells,
    NoHeading,
    // not told by any of these, and all the same not the text of a book
    NotUnderstood,
}

// Where a table is wrong, as a spreadsheet counts, and how. Lines and columns are counted from 1, also those that are passed over; column 0 is the
// whole line, and line 0 the whole table.
#[derive(Clone, Copy)]
pub struct Trouble {
    pub line: usize,
    pub column: usize,
    pub what: What,
}

// Why no book is made: what is wrong with the table, or that the buffer is shorter than a book can be.
#[derive(Clone, Copy)]
pub enum NotMade {
    Wrong(Trouble),
    TooShort,
}

// A piece of a text: where it ends, and where the next one begins.
#[derive(Clone, Copy)]
struct Piece {
    end: usize,
    next: usize,
}

// A part of a text, from one place up to another. Places and no slice: a slice would bring a lifetime to `Turn`, and to its clauses that it is of this text.
#[derive(Clone, Copy)]
struct Span {
    from: usize,
    to: usize,
}

// How far the lines of a table are written: the place in the buffer, whether a heading stands there, and where the heading of the next line is in
// the text; none where one is waited for.
#[derive(Clone, Copy)]
struct Turn {
    next: usize,
    begun: bool,
    heading: Option<Span>,
}

// The table of a book at the front of a buffer that is long enough for any.
pub fn show(book: &[u8], out: &mut [u8]) -> Result<Shown, TooShort>
    ensures shown { Shows book.now out.old out.new result }
    ensures kept { book.exit.now ≡ book.entry.now }
    ensures limit { LONGEST ≡ longest }
{
    if out.len() < LONGEST {
        return Err(TooShort);
    }
    match book::read(book) {
        Err(refused) => Ok(Shown::Bad(lines::bad_line(out, refused.fault.number(), refused.place))),
        Ok(_) => Ok(Shown::Table(put_table(out, 0, &values::of_book(book)))),
    }
}

impl Trouble {
    // This is wrong with the whole table.
    fn whole(what: What) -> Trouble
        ensures { result ≡ whole what }
    {
        Trouble {
            line: 0,
            column: 0,
            what,
        }
    }
}

impl From<Trouble> for NotMade {
    ghost from_gives = { λ t r. r ≡ Wrong t };

    fn from(trouble: Trouble) -> NotMade {
        NotMade::Wrong(trouble)
    }
}

// There is no book of the table, and no place of it tells why.
fn not_understood() -> NotMade
    ensures { result ≡ Wrong (whole NotUnderstood) }
{
    NotMade::Wrong(Trouble::whole(What::NotUnderstood))
}

// Whether the book is a good one whose table is this text.
fn is_shown(book: &[u8], text: &[u8]) -> bool
    ensures { result ≡ true → BookOf text.now book.now }
{
    let mut table = [0u8; LONGEST];
    match show(book, &mut table) {
        Ok(Shown::Table(length)) => length <= LONGEST && &table[..length] == text,
        _ => false,
    }
}

// Whether the book is a good one whose table is the plain text as it is understood. What does not fit is left out: a text that fills the buffer
// may be longer, and is none of a book.
fn is_told(book: &[u8], plain: &[u8]) -> bool
    ensures { result ≡ true → BookOf (tidy plain.now) book.now }
{
    let mut text = [0u8; ROOM];
    let length = fit::put_tidy(plain, &mut text);
    length < ROOM && is_shown(book, &text[..length])
}

// The book, if it is one of the plain text.
fn copied(book: &[u8], plain: &[u8], out: &mut [u8]) -> Result<usize, NotMade>
    ensures { MakesOf (tidy plain.now) out.old out.new result }
{
    if book.len() <= out.len() && is_told(book, plain) {
        return Ok(text::word(out, 0, book));
    }
    Err(not_understood())
}

// The book of these values, if it is one of the plain text.
fn written(plain: &[u8], values: Values, out: &mut [u8]) -> Result<usize, NotMade>
    ensures { MakesOf (tidy plain.now) out.old out.new result }
{
    let mut book = [0u8; values::LONGEST];
    match values::write(values, &mut book) {
        Ok(length) => {
            if length > values::LONGEST {
                return Err(not_understood());
            }
            copied(&book[0..length], plain, out)
        }
        Err(_) => Err(not_understood()),
    }
}

// The book of a plain text at the front of a buffer.
fn made_of(plain: &[u8], out: &mut [u8]) -> Result<usize, NotMade>
    ensures { MakesOf (tidy plain.now) out.old out.new result }
{
    let values = parse::parse(plain)?;
    written(plain, values, out)
}

// The book of a table at the front of a buffer that is long enough for any.
pub fn make(text: &[u8], out: &mut [u8]) -> Result<usize, NotMade>
    ensures made { Makes text.now out.old out.new result }
    ensures kept { text.exit.now ≡ text.entry.now }
    ensures limit { ENOUGH ≡ enough }
{
    if out.len() < values::LONGEST {
        return Err(NotMade::TooShort);
    }
    if text.len() >= ENOUGH {
        return Err(NotMade::Wrong(Trouble::whole(What::TooLong)));
    }
    let mut plain = [0u8; ENOUGH];
    let length = plain::put_plain(text, &mut plain);
    if length >= ENOUGH {
        return Err(not_understood());
    }
    made_of(&plain[..length], out)
}
