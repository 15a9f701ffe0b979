// The bytes of values, appended at a place of a lent buffer. specs/Inner/Puts says what each function appends. The buffer, a place and the form stay
// parameters, and the next place the answer, as `text::put` has it: a struct of them would hold a `&mut`, and each function would have to promise,
// beside what it appends, that the struct keeps the same one.
ghost use Rattle.std.specs.Prelude.{◌≡◌, ◌%◌, ◌≤◌, ◌<◌, length};
ghost use Rattle.book.specs.Layout.{little_endian, field_bytes, row_widths, row_fields, policy_widths, policy_fields, form_has_persons, form_has_editions, lead, bytes_of};
ghost use Rattle.text.specs.Text.{Appended};
ghost use Rattle.values.specs.Values.{contents_for};
ghost use Rattle.values.specs.Inner.Looks.{limit_in, count_of, Counted};
ghost use Rattle.values.specs.Inner.Puts.{person_bytes, edition_bytes, entry_bytes, section_bytes};

use crate::Values;
use book::sections::{policy_width, row_width};
use book::{Form, Row, Section};
use roster::Policy;
use text::put;

// The lowest byte of a number.
fn low(n: u64) -> u8
    ensures { result ≡ n % 256 }
{
    (n % 256) as u8
}

// A number in two bytes, the lowest first: by division, as `little_endian` of the book's specs, which `to_le_bytes` would have to be tied to.
fn put_two(out: &mut [u8], at: usize, n: u64) -> usize
    ensures { Appended (little_endian 2 n) out.old at out.new result }
{
    let next = put(out, at, low(n));
    put(out, next, low(n / 256))
}

// A number in four bytes, the lowest first.
fn put_four(out: &mut [u8], at: usize, n: u64) -> usize
    ensures { Appended (little_endian 4 n) out.old at out.new result }
{
    let next = put_two(out, at, n);
    put_two(out, next, n / 256 / 256)
}

// The leading byte at the front, where the form has one.
pub(crate) fn put_lead(out: &mut [u8], form: Form) -> usize
    ensures { Appended (lead form) out.old 0 out.new result }
{
    match form {
        Form::Old => 0,
        Form::Persons => put(out, 0, 200),
        Form::Editions => put(out, 0, 201),
    }
}

// A person number, where the form has it.
fn put_person(out: &mut [u8], at: usize, form: Form, person: u32) -> usize
    ensures { Appended (person_bytes (form_has_persons form) person) out.old at out.new result }
{
    match form {
        Form::Old => at,
        Form::Persons | Form::Editions => put_four(out, at, u64::from(person)),
    }
}

// A row: its staff number, its person number where the form has it, its holdings.
fn put_row(out: &mut [u8], at: usize, form: Form, row: Row) -> usize
    ensures { Appended (field_bytes (row_widths (form_has_persons form)) (row_fields (form_has_persons form) row)) out.old at out.new result }
{
    let staffed = put_four(out, at, u64::from(row.staff));
    let named = put_person(out, staffed, form, row.person);
    put_four(out, named, u64::from(row.holdings))
}

// An edition, where the form has it.
fn put_edition(out: &mut [u8], at: usize, form: Form, edition: u32) -> usize
    ensures { Appended (edition_bytes (form_has_editions form) edition) out.old at out.new result }
{
    match form {
        Form::Old | Form::Persons => at,
        Form::Editions => put(out, at, low(u64::from(edition))),
    }
}

// A policy: P, then s, d, t in a byte each, and its edition where the form has it.
fn put_policy(out: &mut [u8], at: usize, form: Form, policy: Policy) -> usize
    ensures { Appended (field_bytes (policy_widths (form_has_editions form)) (policy_fields (form_has_editions form) policy)) out.old at out.new result }
{
    let tasked = put_four(out, at, u64::from(policy.task));
    let spared = put(out, tasked, low(u64::from(policy.away)));
    let crewed = put(out, spared, low(policy.crews as u64));
    let sized = put(out, crewed, low(u64::from(policy.size)));
    put_edition(out, sized, form, policy.edition)
}

// An entry of the section.
fn put_entry(out: &mut [u8], at: usize, values: &Values, section: Section, i: usize) -> usize
    requires { i < limit_in section }
    ensures { Appended (entry_bytes values.now section i) out.old at out.new result }
{
    let form = values.form;
    match section {
        Section::Permissions => put_two(out, at, u64::from(values.code_in(i))),
        Section::Rows => put_row(out, at, form, values.row_in(i)),
        Section::Policies => put_policy(out, at, form, values.policy_in(i)),
    }
}

// A section: its count, then its entries.
pub(crate) fn put_section(out: &mut [u8], at: usize, values: &Values, section: Section) -> usize
    requires { count_of values.now section ≤ limit_in section }
    ensures { Appended (section_bytes values.now section) out.old at out.new result }
{
    let count = values.count_of(section);
    let mut next = put(out, at, low(count as u64));
    for i in 0..count {
        next = put_entry(out, next, values, section, i);
    }
    next
}

// How long the book of these values is.
pub(crate) fn length_of(values: &Values) -> usize
    requires { Counted values.now }
    ensures { result ≡ length (bytes_of (contents_for values.now)) }
{
    let form = values.form;
    let front = form.front();
    let wide = row_width(form);
    let asked = policy_width(form);
    let codes = values.count_of(Section::Permissions);
    let rows = values.count_of(Section::Rows);
    let policies = values.count_of(Section::Policies);
    front + 3 + 2 * codes + wide * rows + asked * policies
}
