// The values of a book, all at once: read from it, changed by whoever likes, and written as a book again. specs/Values says which values are
// meant, specs/Writing what is refused and what is written.
#![tactic(auto)]

mod gather;
mod look;
mod put;

ghost use Rattle.std.specs.Prelude.{◌≡◌};
ghost use Rattle.book.specs.declared.Form.TheVariants as old;
ghost use Rattle.values.specs.Values.{contents_for, no_values, values_of};
ghost use Rattle.values.specs.Writing.{not_written, longest, unwritten_number, Writes};

use book::{Fault, Form, PERMISSIONS, POLICIES, Row, Section};
use gather::{UNASKED, all_codes, all_policies, all_rows};
use put::{length_of, put_lead, put_section};
use roster::Policy;

// So many bytes hold any book.
pub const LONGEST: usize = 1092;

// What a book says. As many of each list are meant as its count says; what stands past the count plays no part, and neither does a field that the
// form has not. Arrays with counts beside, and no Vec: a Vec's memory may run out, and `of_book` and `none` cannot fail.
#[derive(Clone, Copy)]
pub struct Values {
    pub form: Form,
    pub codes: [u16; PERMISSIONS],
    pub code_count: usize,
    pub rows: [Row; Policy::ROWS],
    pub row_count: usize,
    pub policies: [Policy; POLICIES],
    pub policy_count: usize,
}

// Why values are not written. `number` gives the number that is published for each.
#[derive(Clone, Copy, Debug, PartialEq, Eq)]
pub enum Unwritten {
    Fault(Fault),
    Room,
}

// Why a book is not written, with the place 0: there is no place in a book that is not written.
#[derive(Clone, Copy, Debug, PartialEq, Eq)]
pub struct NotWritten {
    pub why: Unwritten,
    pub place: usize,
}

impl Unwritten {
    // The published number.
    pub fn number(self) -> u32
        ensures { result ≡ unwritten_number self }
    {
        match self {
            Unwritten::Fault(fault) => fault.number(),
            Unwritten::Room => 20,
        }
    }
}

impl Values {
    // Nothing yet, to begin from, of the old form.
    pub fn none() -> Values
        ensures { result ≡ no_values old.Old }
    {
        Values {
            form: Form::Old,
            codes: [0; PERMISSIONS],
            code_count: 0,
            rows: [Row::NOBODY; Policy::ROWS],
            row_count: 0,
            policies: [UNASKED; POLICIES],
            policy_count: 0,
        }
    }
}

// ---- reading

// All values of a book; a refused one has none.
pub fn of_book(book: &[u8]) -> Values
    ensures reply { result ≡ values_of book.now }
    ensures kept { book.exit.now ≡ book.entry.now }
{
    let form = book::form_of(book);
    let starts = book::starts_in(book);
    let codes = all_codes(book, starts);
    let rows = all_rows(book, starts);
    let policies = all_policies(book, starts.policies);
    let accounts = book::accounts_of(book);
    let code_count = book::code_count(book);
    let policy_count = book::policy_count(book);
    Values {
        form,
        codes,
        code_count,
        rows,
        row_count: accounts.rows,
        policies,
        policy_count,
    }
}

// ---- writing

// Not written for this reason.
fn not_written(why: Unwritten) -> Result<usize, NotWritten>
    ensures { result ≡ not_written why 0 }
{
    Err(NotWritten { why, place: 0 })
}

// The book of these values at the front of a buffer, and its length, or why there is none. What is refused leaves the buffer as it was.
pub fn write(values: Values, out: &mut [u8]) -> Result<usize, NotWritten>
    ensures written { Writes (contents_for values) out.old out.new result }
    ensures limit { LONGEST ≡ longest }
{
    if let Err(fault) = values.first_fault() {
        return not_written(Unwritten::Fault(fault));
    }
    if out.len() < length_of(&values) {
        return not_written(Unwritten::Room);
    }
    let form = values.form;
    let codes = put_lead(out, form);
    let rows = put_section(out, codes, &values, Section::Permissions);
    let policies = put_section(out, rows, &values, Section::Rows);
    Ok(put_section(out, policies, &values, Section::Policies))
}
