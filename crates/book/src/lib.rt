// The roster book: the bytes by which a site hands over its permissions, its rows and its policies. `read` says of every byte string
// whether it is a good book or what its first fault is; the functions after it hand out a good book's parts. specs/Layout says what a book
// is, specs/Reading what is refused and where. A book has one of three forms, told by its first byte.
#![tactic(auto)]

pub mod sections;

ghost use Rattle.std.specs.Prelude.{◌≡◌};
ghost use Rattle.book.specs.Faults.{fault_number};
ghost use Rattle.book.specs.Reading.{form_of, front, read_of};
ghost use Rattle.book.specs.Parts.{starts_in, place_of, code_count_of, code_at, row_at, row_of, row_by_number, row_or0, accounts_at, accounts_in, policy_count_of, policy_in, policy_at};
ghost use Rattle.book.specs.Promises.{ViewOf};
ghost use Rattle.book.specs.Inner.Steps.{width_in};

use accounts::Accounts;
use roster::{Policy, Refusal};
use sections::{count_at, cut, two};

// Permissions of a book at most; a row's holdings have a bit for each.
pub const PERMISSIONS: usize = 32;
// Policies of a book at most.
pub const POLICIES: usize = 32;

// The first byte of a book whose rows have person numbers. No old book starts so: it would have too many permissions.
const PERSONS: usize = 200;

// The first byte of one whose policies name their editions, too.
const EDITIONS: usize = 201;

// What a book has: the rows of an old one have no person numbers, and each is a person of its own; policies without editions are of the first.
#[derive(Clone, Copy)]
pub enum Form {
    Old,
    Persons,
    Editions,
}

// What is wrong with a book. `number` gives the number that is published for each.
#[derive(Clone, Copy, Debug, PartialEq, Eq)]
pub enum Fault {
    Short,
    Permissions,
    Code,
    Rows,
    Staff,
    Holdings,
    Policies,
    Task,
    Policy(Refusal),
    Excess,
}

// Where the sections start, each with its count.
#[derive(Clone, Copy)]
pub struct Starts {
    pub permissions: usize,
    pub rows: usize,
    pub policies: usize,
}

// Why a book is refused: its first fault, with the place of the count or field concerned.
#[derive(Clone, Copy, Debug, PartialEq, Eq)]
pub struct FaultAt {
    pub fault: Fault,
    pub place: usize,
}

// A row of the book, an account. Rows with the same person number are one person; in an old book it is the staff number.
#[derive(Clone, Copy)]
pub struct Row {
    pub staff: u32,
    pub person: u32,
    pub holdings: u32,
}

impl Row {
    // What stands where no row is.
    pub const NOBODY: Row = Row {
        staff: 0,
        person: 0,
        holdings: 0,
    };
}

impl Fault {
    // The published number.
    pub fn number(self) -> u32
        ensures { result ≡ fault_number self }
    {
        match self {
            Fault::Short => 11,
            Fault::Permissions => 12,
            Fault::Code => 13,
            Fault::Rows => 14,
            Fault::Staff => 15,
            Fault::Holdings => 16,
            Fault::Policies => 17,
            Fault::Task => 18,
            Fault::Policy(refusal) => refusal.number(),
            Fault::Excess => 19,
        }
    }
}

impl Form {
    // Where the permissions start: after the leading byte, if there is one.
    pub fn front(self) -> usize
        ensures { result ≡ front self }
    {
        match self {
            Form::Old => 0,
            Form::Persons | Form::Editions => 1,
        }
    }
}

// ---- what the reader goes by; what is public of it is so only for the laws of crates above, which name it

// The sections, in their order. A trait with a type for each would be no plainer: six methods thrice, most of them one number, and the form passed
// to codes, which have none.
#[derive(Clone, Copy)]
pub enum Section {
    Permissions,
    Rows,
    Policies,
}

// What is amiss with a count or an entry by itself: this fault of its field of this number, the first being 0.
#[derive(Clone, Copy)]
pub struct Amiss {
    pub fault: Fault,
    pub field: usize,
}

// Where the reader stands in a section, and where the entry before stands, if there is one.
#[derive(Clone, Copy)]
struct Cursor {
    pub before: Option<usize>,
    pub at: usize,
}

// A book that is read, as its first byte says. A value with the section and the number of listed permissions in it, too, would be no plainer: `read`
// would make one for each section, for the three functions that take both, and each of their clauses would be longer.
#[derive(Clone, Copy)]
struct Reader<'a> {
    pub bytes: &'a [u8],
    pub form: Form,
}

// ---- the book

// The form, of any bytes.
pub fn form_of(book: &[u8]) -> Form
    ensures reply { result ≡ form_of book.now }
    ensures kept { book.exit.now ≡ book.entry.now }
{
    let first = count_at(book, 0);
    if first == PERSONS {
        return Form::Persons;
    }
    if first == EDITIONS {
        return Form::Editions;
    }
    Form::Old
}

// The reply to a book: where its sections start, if it is good, or its first fault. After the policies nothing may follow.
pub fn read(book: &[u8]) -> Result<Starts, FaultAt>
    ensures reply { result ≡ read_of book.now }
    ensures kept { book.exit.now ≡ book.entry.now }
{
    let form = form_of(book);
    let reader = Reader { bytes: book, form };
    let permissions = form.front();
    let rows = reader.section_step(Section::Permissions, 0, permissions)?;
    let listed = count_at(book, permissions);
    let policies = reader.section_step(Section::Rows, listed, rows)?;
    let end = reader.section_step(Section::Policies, listed, policies)?;
    if end < book.len() {
        return Err(FaultAt {
            fault: Fault::Excess,
            place: end,
        });
    }
    Ok(Starts {
        permissions,
        rows,
        policies,
    })
}

// ---- the parts of a book

// Where the sections are taken to start, of a refused book too: at its end, where no count stands, so that it has no parts.
pub fn starts_in(book: &[u8]) -> Starts
    ensures reply { result ≡ starts_in book.now }
    ensures kept { book.exit.now ≡ book.entry.now }
{
    read(book).unwrap_or(Starts {
        permissions: book.len(),
        rows: book.len(),
        policies: book.len(),
    })
}

impl<'a> Reader<'a> {
    // Where the i-th entry of the section stands that starts here, if it has one.
    fn place_of(self, section: Section, start: usize, i: usize) -> Option<usize>
        ensures { result ≡ place_of (width_in self.entry.form section) self.entry.bytes.now start i }
    {
        if i >= count_at(self.bytes, start) {
            return None;
        }
        let wide = self.width(section);
        let at = start + 1 + wide * i;
        if cut(self.bytes, at, wide) {
            return None;
        }
        Some(at)
    }
}

// How many permissions a book lists; a refused one has none. `policy_count` is alike, but for its section: docs/PROMISES.md names both.
#[tactic(auto, unfolding(crate::specs::Parts::code_count_of))]
pub fn code_count(book: &[u8]) -> usize
    ensures reply { result ≡ code_count_of book.now }
    ensures kept { book.exit.now ≡ book.entry.now }
{
    let starts = starts_in(book);
    count_at(book, starts.permissions)
}

// The i-th code of a book whose sections start here.
pub fn code_at(book: &[u8], starts: Starts, i: usize) -> Option<u16>
    ensures reply { result ≡ code_at book.now starts i }
    ensures kept { book.exit.now ≡ book.entry.now }
{
    let form = form_of(book);
    let reader = Reader { bytes: book, form };
    let at = reader.place_of(Section::Permissions, starts.permissions, i)?;
    Some(two(book, at) as u16)
}

// A row of a book whose sections start here.
pub fn row_at(book: &[u8], starts: Starts, row: usize) -> Option<Row>
    ensures reply { result ≡ row_at book.now starts row }
    ensures kept { book.exit.now ≡ book.entry.now }
{
    let form = form_of(book);
    let reader = Reader { bytes: book, form };
    let at = reader.place_of(Section::Rows, starts.rows, row)?;
    Some(reader.row_from(at))
}

// The accounts of a book whose sections start here. A row that is not there has no numbers and holds nothing.
fn accounts_at(book: &[u8], starts: Starts) -> Accounts
    ensures { result ≡ accounts_at book.now starts }
{
    let mut holdings = [0u32; Policy::ROWS];
    let mut persons = [0u32; Policy::ROWS];
    for row in 0..Policy::ROWS {
        let seen = row_at(book, starts, row).unwrap_or(Row::NOBODY);
        holdings[row] = seen.holdings;
        persons[row] = seen.person;
    }
    Accounts {
        holdings,
        persons,
        rows: count_at(book, starts.rows),
    }
}

// The accounts of a book; a refused one has no rows.
#[tactic(auto, unfolding(crate::specs::Parts::accounts_in))]
pub fn accounts_of(book: &[u8]) -> Accounts
    ensures reply { result ≡ accounts_in book.now }
    ensures kept { book.exit.now ≡ book.entry.now }
{
    let starts = starts_in(book);
    accounts_at(book, starts)
}

// How many policies a book has; a refused one has none.
#[tactic(auto, unfolding(crate::specs::Parts::policy_count_of))]
pub fn policy_count(book: &[u8]) -> usize
    ensures reply { result ≡ policy_count_of book.now }
    ensures kept { book.exit.now ≡ book.entry.now }
{
    let starts = starts_in(book);
    count_at(book, starts.policies)
}

// The i-th policy of the section that starts here.
pub fn policy_in(book: &[u8], start: usize, i: usize) -> Option<Policy>
    ensures reply { result ≡ policy_in book.now start i }
    ensures kept { book.exit.now ≡ book.entry.now }
{
    let form = form_of(book);
    let reader = Reader { bytes: book, form };
    let at = reader.place_of(Section::Policies, start, i)?;
    reader.policy_from(at).ok()
}

// The i-th policy of a book; a refused one has none.
#[tactic(auto, unfolding(crate::specs::Parts::policy_at))]
pub fn policy_at(book: &[u8], i: usize) -> Option<Policy>
    ensures reply { result ≡ policy_at book.now i }
    ensures kept { book.exit.now ≡ book.entry.now }
{
    let starts = starts_in(book);
    policy_in(book, starts.policies, i)
}

// ---- the view

// A lent book with its section starts, for whoever asks by row again and again.
#[derive(Clone, Copy)]
pub struct Book<'a> {
    pub bytes: &'a [u8],
    pub starts: Starts,
}

// Reads the book once.
pub fn view<'a>(bytes: &'a [u8]) -> Book<'a>
    ensures reply { ViewOf bytes.entry result }
    ensures kept { bytes.exit.now ≡ bytes.entry.now }
{
    Book {
        bytes,
        starts: starts_in(bytes),
    }
}

// A row of the book that is viewed.
pub fn row_of<'a>(book: Book<'a>, row: usize) -> Option<Row>
    ensures reply { result ≡ row_of book.entry row }
    ensures kept { (book.exit ≡ book.entry) × (book.exit.bytes.now ≡ book.entry.bytes.now) }
{
    row_at(book.bytes, book.starts, row)
}

// A row of these bytes, for a caller that keeps no view.
pub fn row_by_number(bytes: &[u8], row: usize) -> Option<Row>
    ensures reply { result ≡ row_by_number bytes.now row }
    ensures kept { bytes.exit.now ≡ bytes.entry.now }
{
    row_of(view(bytes), row)
}
