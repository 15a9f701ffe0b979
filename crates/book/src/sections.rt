// What the reader does with one section: the numbers that stand at a place, one count or one entry looked over, and all entries in their turn.
// specs/Inner/Steps says what each function answers. What is public here is what the writer of a book asks too.
// The first functions take the bytes and no Reader: a book's form is found by one of them. A place may be past the end, so it is no slice from there.
ghost use Rattle.std.specs.Prelude.{◌≡◌, true, ◌+◌, ◌<◌, ◌^◌, ltb, length, get_or, None};
ghost use Rattle.book.specs.Layout.{row_widths, policy_widths, form_has_persons, form_has_editions};
ghost use Rattle.book.specs.Reading.{number, past_listed, row_amiss, holdings_field, field_of, field_place, cut_place, width, codes, rows_of, policies_of, entry_at, entry_look};
ghost use Rattle.book.specs.Inner.Steps.{width_in, lead_in, stays_in, out_in, count_fault_in, count_amiss_in, count_in, made_at, look_in, past_entry, step_from, start_at, step_in};

use crate::{Amiss, Cursor, Fault, FaultAt, Form, PERMISSIONS, POLICIES, Reader, Row, Section};
use roster::{Policy, Refusal};

// The width of a code, in bytes.
const CODE_WIDTH: usize = 2;

// P's width, the first field of a policy.
const TASK_WIDTH: usize = 4;

// The edition of a policy of an older book, which names none.
const UNNAMED: u32 = 1;

// ---- what stands at a place

// The byte at a place; past the end there are zeros.
fn byte(book: &[u8], at: usize) -> u8
    ensures { result ≡ get_or book.now at 0 }
{
    if at < book.len() { book[at] } else { 0 }
}

// The little endian number of two bytes. The sum stands as `number` has it, to which `from_le_bytes` would have to be tied: no plainer. So it is with four.
pub(crate) fn two(book: &[u8], at: usize) -> u32
    ensures { (result ≡ number 2 book.now at) × (result < 2 ^ 16) }
{
    if at >= book.len() {
        return 0;
    }
    let low = u32::from(byte(book, at));
    let high = u32::from(byte(book, at + 1));
    low + 256 * high
}

// The little endian number of four bytes.
pub(crate) fn four(book: &[u8], at: usize) -> u32
    ensures { result ≡ number 4 book.now at }
{
    if at >= book.len() {
        return 0;
    }
    let low = two(book, at);
    let high = two(book, at + 2);
    low + 65536 * high
}

// The count that stands at a place.
pub(crate) fn count_at(book: &[u8], at: usize) -> usize
    ensures { (result ≡ get_or book.now at 0) × (result < 256) }
{
    usize::from(byte(book, at))
}

// Whether the book ends before `width` bytes from here are whole.
pub(crate) fn cut(book: &[u8], at: usize, width: usize) -> bool
    ensures { result ≡ ltb (length book.now) (at + width) }
{
    if at > book.len() {
        return true;
    }
    book.len() - at < width
}

// Whether the set has a bit at or past the number of listed permissions. A shift by 32 is no operation, and no set has a bit there.
pub fn past_listed(listed: usize, set: u32) -> bool
    ensures { result ≡ past_listed listed set }
{
    if listed >= PERMISSIONS {
        return false;
    }
    set >> listed != 0
}

// ---- one count or one entry by itself

// A row's width, with its person number or without.
pub fn row_width(form: Form) -> usize
    ensures { result ≡ width (rows_of form) }
{
    match form {
        Form::Old => 8,
        Form::Persons | Form::Editions => 12,
    }
}

// A policy's width, with its edition or without.
pub fn policy_width(form: Form) -> usize
    ensures { result ≡ width (policies_of form) }
{
    match form {
        Form::Old | Form::Persons => 7,
        Form::Editions => 8,
    }
}

// Whether a section may not have so many entries.
fn out_of_range(section: Section, count: usize) -> bool
    ensures { result ≡ out_in section count }
{
    match section {
        Section::Permissions => count == 0 || count > PERMISSIONS,
        Section::Rows => count > Policy::ROWS,
        Section::Policies => count > POLICIES,
    }
}

// The fault of such a count.
fn count_fault(section: Section) -> Fault
    ensures { result ≡ count_fault_in section }
{
    match section {
        Section::Permissions => Fault::Permissions,
        Section::Rows => Fault::Rows,
        Section::Policies => Fault::Policies,
    }
}

// What is amiss with a count, which is one field.
pub fn count_amiss(section: Section, count: usize) -> Result<(), Amiss>
    ensures { result ≡ count_amiss_in section count }
{
    if out_of_range(section, count) {
        return Err(Amiss {
            fault: count_fault(section),
            field: 0,
        });
    }
    Ok(())
}

// Which field of a row its holdings are.
fn holdings_field(form: Form) -> usize
    ensures { result ≡ holdings_field (form_has_persons form) }
{
    match form {
        Form::Old => 1,
        Form::Persons | Form::Editions => 2,
    }
}

// What is amiss with a row whose staff number does not ascend, or whose holdings go beyond the listed permissions.
pub fn row_amiss(form: Form, low: bool, beyond: bool) -> Result<(), Amiss>
    ensures { result ≡ row_amiss (form_has_persons form) low beyond }
{
    if low {
        return Err(Amiss {
            fault: Fault::Staff,
            field: 0,
        });
    }
    if beyond {
        return Err(Amiss {
            fault: Fault::Holdings,
            field: holdings_field(form),
        });
    }
    Ok(())
}

// The field that a policy's own refusal speaks of.
pub fn policy_field(refusal: Refusal) -> usize
    ensures { result ≡ field_of refusal }
{
    match refusal {
        Refusal::Rows | Refusal::Task | Refusal::Absence => 0,
        Refusal::Away => 1,
        Refusal::Crews => 2,
        Refusal::Size => 3,
        Refusal::Edition => 4,
    }
}

// How far into a policy that field starts: past P each field is one byte.
fn policy_offset(refusal: Refusal) -> usize
    ensures { result ≡ field_place (policy_widths true) 0 (field_of refusal) }
{
    match policy_field(refusal) {
        0 => 0,
        field => TASK_WIDTH - 1 + field,
    }
}

// ---- what is read

impl Cursor {
    // Past an entry of this width.
    fn past(self, width: usize) -> Cursor
        requires { self.at + width < 2 ^ 64 }
        ensures { result ≡ past_entry self width }
    {
        Cursor {
            before: Some(self.at),
            at: self.at + width,
        }
    }
}

impl<'a> Reader<'a> {
    // An entry's width.
    pub(crate) fn width(self, section: Section) -> usize
        ensures { result ≡ width_in self.entry.form section }
    {
        match section {
            Section::Permissions => CODE_WIDTH,
            Section::Rows => row_width(self.form),
            Section::Policies => policy_width(self.form),
        }
    }

    // The number that an entry starts with.
    fn lead(self, section: Section, at: usize) -> u32
        ensures { result ≡ lead_in section self.entry.bytes.now at }
    {
        match section {
            Section::Permissions => two(self.bytes, at),
            Section::Rows | Section::Policies => four(self.bytes, at),
        }
    }

    // Whether that number is not above the one before. The first entry has none before it, so any number may come first.
    fn stays(self, section: Section, cursor: Cursor) -> bool
        ensures { result ≡ stays_in section self.entry.bytes.now cursor }
    {
        match cursor.before {
            None => false,
            Some(last) => self.lead(section, cursor.at) <= self.lead(section, last),
        }
    }

    // A section's count.
    fn look_count(self, section: Section, at: usize) -> Result<(), FaultAt>
        ensures { result ≡ count_in section self.entry.bytes.now at }
    {
        if cut(self.bytes, at, 1) {
            return Err(FaultAt {
                fault: Fault::Short,
                place: at,
            });
        }
        count_amiss(section, count_at(self.bytes, at)).map_err(|amiss| FaultAt {
            fault: amiss.fault,
            place: at,
        })
    }

    // A permission's code.
    fn look_code(self, cursor: Cursor) -> Result<(), FaultAt>
        ensures { result ≡ entry_look codes self.entry.bytes.now 0 cursor.before cursor.at }
    {
        if cut(self.bytes, cursor.at, CODE_WIDTH) {
            return Err(FaultAt {
                fault: Fault::Short,
                place: cursor.at,
            });
        }
        if self.stays(Section::Permissions, cursor) {
            return Err(FaultAt {
                fault: Fault::Code,
                place: cursor.at,
            });
        }
        Ok(())
    }

    // Where the first field of a row starts that a book which ends in this row does not have whole. Each field of a row is four bytes.
    fn cut_row(self, at: usize) -> usize
        requires { length self.bytes.now < at + 12 }
        ensures { result ≡ cut_place (row_widths true) (length self.entry.bytes.now) at }
    {
        if cut(self.bytes, at, 4) {
            return at;
        }
        if cut(self.bytes, at + 4, 4) {
            return at + 4;
        }
        at + 8
    }

    // The row whose fields stand here. An old one has no person number: its staff number stands for it.
    pub(crate) fn row_from(self, at: usize) -> Row
        requires { at + width (rows_of self.form) < 2 ^ 64 }
        ensures { result ≡ entry_at (rows_of self.entry.form) self.entry.bytes.now at }
    {
        let staff = four(self.bytes, at);
        let second = four(self.bytes, at + 4);
        match self.form {
            Form::Old => Row {
                staff,
                person: staff,
                holdings: second,
            },
            Form::Persons | Form::Editions => Row {
                staff,
                person: second,
                holdings: four(self.bytes, at + 8),
            },
        }
    }

    // A row.
    fn look_row(self, listed: usize, cursor: Cursor) -> Result<(), FaultAt>
        ensures { result ≡ entry_look (rows_of self.entry.form) self.entry.bytes.now listed cursor.before cursor.at }
    {
        let at = cursor.at;
        if cut(self.bytes, at, row_width(self.form)) {
            return Err(FaultAt {
                fault: Fault::Short,
                place: self.cut_row(at),
            });
        }
        let row = self.row_from(at);
        let low = self.stays(Section::Rows, cursor);
        let beyond = past_listed(listed, row.holdings);
        if let Err(amiss) = row_amiss(self.form, low, beyond) {
            return Err(FaultAt {
                fault: amiss.fault,
                place: at + 4 * amiss.field,
            });
        }
        Ok(())
    }

    // The edition of the policy whose fields stand here. An older book names none: it is the first.
    fn edition_from(self, at: usize) -> u32
        requires { at + width (policies_of self.form) < 2 ^ 64 }
        ensures { result ≡ (entry_at (policies_of self.entry.form) self.entry.bytes.now at).edition }
    {
        match self.form {
            Form::Old | Form::Persons => UNNAMED,
            Form::Editions => u32::from(byte(self.bytes, at + 7)),
        }
    }

    // The policy whose fields stand here, or its own first fault.
    pub(crate) fn policy_from(self, at: usize) -> Result<Policy, Refusal>
        requires { at + width (policies_of self.form) < 2 ^ 64 }
        ensures { result ≡ made_at self.entry.form self.entry.bytes.now at }
    {
        let task = four(self.bytes, at);
        let away = u32::from(byte(self.bytes, at + 4));
        let crews = count_at(self.bytes, at + 5);
        let size = u32::from(byte(self.bytes, at + 6));
        let edition = self.edition_from(at);
        Policy::new(task, away, crews, size, edition)
    }

    // Where the first field of a policy starts that a book which ends in this policy does not have whole. After P each field is one byte.
    fn cut_policy(self, at: usize) -> usize
        requires { length self.bytes.now < at + width (policies_of self.form) }
        ensures { result ≡ cut_place (policy_widths (form_has_editions self.entry.form)) (length self.entry.bytes.now) at }
    {
        if cut(self.bytes, at, TASK_WIDTH) {
            return at;
        }
        self.bytes.len()
    }

    // A policy.
    fn look_policy(self, listed: usize, at: usize) -> Result<(), FaultAt>
        ensures { result ≡ entry_look (policies_of self.entry.form) self.entry.bytes.now listed None at }
    {
        if cut(self.bytes, at, policy_width(self.form)) {
            return Err(FaultAt {
                fault: Fault::Short,
                place: self.cut_policy(at),
            });
        }
        if past_listed(listed, four(self.bytes, at)) {
            return Err(FaultAt {
                fault: Fault::Task,
                place: at,
            });
        }
        if let Err(refusal) = self.policy_from(at) {
            return Err(FaultAt {
                fault: Fault::Policy(refusal),
                place: at + policy_offset(refusal),
            });
        }
        Ok(())
    }

    // An entry of the section.
    fn look_entry(self, section: Section, listed: usize, cursor: Cursor) -> Result<(), FaultAt>
        ensures { result ≡ look_in self.entry.form section self.entry.bytes.now listed cursor.before cursor.at }
    {
        match section {
            Section::Permissions => self.look_code(cursor),
            Section::Rows => self.look_row(listed, cursor),
            Section::Policies => self.look_policy(listed, cursor.at),
        }
    }

    // The section's entries, from the first one's place on.
    fn entries(
        self,
        section: Section,
        listed: usize,
        at: usize,
        count: usize,
    ) -> Result<usize, FaultAt>
        ensures { result ≡ step_from (look_in self.entry.form section self.entry.bytes.now listed) (width_in self.entry.form section) (start_at at) count }
    {
        let wide = self.width(section);
        let mut cursor = Cursor { before: None, at };
        for _passed in 0..count {
            self.look_entry(section, listed, cursor)?;
            cursor = cursor.past(wide);
        }
        Ok(cursor.at)
    }

    // The section that starts here: its count, then its entries.
    pub(crate) fn section_step(
        self,
        section: Section,
        listed: usize,
        at: usize,
    ) -> Result<usize, FaultAt>
        ensures { result ≡ step_in self.entry.form section self.entry.bytes.now listed at }
    {
        self.look_count(section, at)?;
        self.entries(section, listed, at + 1, count_at(self.bytes, at))
    }
}
