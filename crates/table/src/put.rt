// A book's values as the text of a table, appended at a place of a lent buffer. specs/Inner/Puts says what each function appends.
ghost use Rattle.std.specs.Prelude.{◌≡◌, ◌<◌, ◌≤◌, [], ◌∷◌};
ghost use Rattle.text.specs.Text.{Appended, decimal};
ghost use Rattle.roster.specs.Limits.{row_limit};
ghost use Rattle.book.specs.Layout.{form_has_persons, form_has_editions, permission_limit, policy_limit};
ghost use Rattle.values.specs.Values.{contents_for};
ghost use Rattle.values.specs.Inner.Looks.{code_in, row_in, policy_given, Counted};
ghost use Rattle.table.specs.Table.{only_if, mark, marks, row_heading, row_cells, policy_heading, policy_cells, table_text_of};
ghost use Rattle.table.specs.Inner.Puts.{further, line, code_cells, rows_text, policies_text};

use book::{Form, Row};
use roster::Policy;
use values::Values;

// ---- the values by their index

// The code of this index.
fn code_in(contents: &Values, i: usize) -> u64
    requires { i < permission_limit }
    ensures { result ≡ code_in contents.now i }
{
    u64::from(contents.codes[i])
}

// The row of this index.
fn row_in(contents: &Values, i: usize) -> Row
    requires { i < row_limit }
    ensures { result ≡ row_in contents.now i }
{
    contents.rows[i]
}

// The policy of this index.
fn policy_in(contents: &Values, i: usize) -> Policy
    requires { i < policy_limit }
    ensures { result ≡ policy_given contents.now i }
{
    contents.policies[i]
}

// Whether there is a column of person numbers.
fn has_persons(form: Form) -> bool
    ensures { result ≡ form_has_persons form }
{
    !matches!(form, Form::Old)
}

// Whether there is a column of editions.
fn has_editions(form: Form) -> bool
    ensures { result ≡ form_has_editions form }
{
    matches!(form, Form::Editions)
}

// ---- cells, each after its comma

// The loops over codes, rows and policies are three: one that takes the list and a closure would need a ghost value and `F.post` over the lent buffer, which
// is no plainer.

// A heading's cell, where the form has its column.
fn put_word(out: &mut [u8], at: usize, there: bool, word: &[u8]) -> usize
    ensures { Appended (further (only_if there word.now)) out.old at out.new result }
{
    if !there {
        return at;
    }
    let next = text::put(out, at, b',');
    text::word(out, next, word)
}

// A number's cell, where the form has its column.
fn put_number(out: &mut [u8], at: usize, there: bool, n: u32) -> usize
    ensures { Appended (further (only_if there (decimal n))) out.old at out.new result }
{
    if !there {
        return at;
    }
    text::number(out, at, b',', u64::from(n))
}

// A cell with a mark, or an empty one for 0.
fn put_mark(out: &mut [u8], at: usize, digit: u32) -> usize
    ensures { Appended (further (mark digit ∷ [])) out.old at out.new result }
{
    let next = text::put(out, at, b',');
    if digit == 0 {
        return next;
    }
    text::put(out, next, b'x')
}

// A cell for each of the listed permissions.
fn put_marks(out: &mut [u8], at: usize, listed: usize, set: u32) -> usize
    ensures { Appended (further (marks listed set)) out.old at out.new result }
{
    let mut next = at;
    let mut left = set;
    for i in 0..listed {
        next = put_mark(out, next, left % 2);
        left /= 2;
    }
    next
}

// The codes of a heading. Three functions ask for no more codes than there is room for: of the values as a whole `Counted` says it, and a type for
// such values would be no plainer, made once by `put_table`.
fn put_codes(out: &mut [u8], at: usize, contents: &Values) -> usize
    requires { contents.now.code_count ≤ permission_limit }
    ensures { Appended (code_cells contents.now) out.old at out.new result }
{
    let mut next = at;
    for i in 0..contents.code_count {
        next = text::number(out, next, b',', code_in(contents, i));
    }
    next
}

// ---- lines

// The rows' heading.
fn put_row_heading(out: &mut [u8], at: usize, persons: bool, contents: &Values) -> usize
    requires { contents.now.code_count ≤ permission_limit }
    ensures { Appended (line (row_heading persons (contents_for contents.now).codes)) out.old at out.new result }
{
    let staffed = text::word(out, at, b"staff");
    let named = put_word(out, staffed, persons, b"person");
    let coded = put_codes(out, named, contents);
    text::put(out, coded, b'\n')
}

// A row.
fn put_row(out: &mut [u8], at: usize, persons: bool, listed: usize, row: Row) -> usize
    ensures { Appended (line (row_cells persons listed row)) out.old at out.new result }
{
    let staffed = text::decimal(out, at, u64::from(row.staff));
    let named = put_number(out, staffed, persons, row.person);
    let held = put_marks(out, named, listed, row.holdings);
    text::put(out, held, b'\n')
}

// All rows.
fn put_rows(out: &mut [u8], at: usize, persons: bool, contents: &Values) -> usize
    requires { contents.now.row_count ≤ row_limit }
    ensures { Appended (rows_text persons contents.now) out.old at out.new result }
{
    let mut next = at;
    for i in 0..contents.row_count {
        next = put_row(out, next, persons, contents.code_count, row_in(contents, i));
    }
    next
}

// The policies' heading.
fn put_policy_heading(out: &mut [u8], at: usize, editions: bool, contents: &Values) -> usize
    requires { contents.now.code_count ≤ permission_limit }
    ensures { Appended (line (policy_heading editions (contents_for contents.now).codes)) out.old at out.new result }
{
    let called = text::word(out, at, b"s,d,t");
    let named = put_word(out, called, editions, b"edition");
    let coded = put_codes(out, named, contents);
    text::put(out, coded, b'\n')
}

// A policy.
fn put_policy(out: &mut [u8], at: usize, editions: bool, listed: usize, policy: Policy) -> usize
    ensures { Appended (line (policy_cells editions listed policy)) out.old at out.new result }
{
    let spared = text::decimal(out, at, u64::from(policy.away));
    let crewed = text::number(out, spared, b',', policy.crews as u64);
    let sized = text::number(out, crewed, b',', u64::from(policy.size));
    let named = put_number(out, sized, editions, policy.edition);
    let asked = put_marks(out, named, listed, policy.task);
    text::put(out, asked, b'\n')
}

// All policies.
fn put_policies(out: &mut [u8], at: usize, editions: bool, contents: &Values) -> usize
    requires { contents.now.policy_count ≤ policy_limit }
    ensures { Appended (policies_text editions contents.now) out.old at out.new result }
{
    let mut next = at;
    for i in 0..contents.policy_count {
        next = put_policy(
            out,
            next,
            editions,
            contents.code_count,
            policy_in(contents, i),
        );
    }
    next
}

// ---- the table

// The table of these values, of which no more are meant than their arrays have.
pub(crate) fn put_table(out: &mut [u8], at: usize, contents: &Values) -> usize
    requires { Counted contents.now }
    ensures { Appended (table_text_of (contents_for contents.now)) out.old at out.new result }
{
    let form = contents.form;
    let persons = has_persons(form);
    let editions = has_editions(form);
    let headed = put_row_heading(out, at, persons, contents);
    let staffed = put_rows(out, headed, persons, contents);
    let parted = text::put(out, staffed, b'\n');
    let asked = put_policy_heading(out, parted, editions, contents);
    put_policies(out, asked, editions, contents)
}
