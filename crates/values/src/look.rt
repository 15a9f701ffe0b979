// What is amiss with values, in reading order: a section's count, then its entries, each beside the one before. specs/Inner/Looks says what
// each function answers. A section and an index that is below its limit stay two parameters, here and in `put`: a value of both would be made anew
// for each entry and taken apart again, as each section has an array of its own, with its own limit.
ghost use Rattle.std.specs.Prelude.{◌≡◌, ◌≤◌, ◌<◌, true, None};
ghost use Rattle.roster.specs.Limits.{row_limit};
ghost use Rattle.book.specs.Layout.{permission_limit, policy_limit};
ghost use Rattle.book.specs.Reading.{policies};
ghost use Rattle.book.specs.declared.Form.TheVariants as old;
ghost use Rattle.values.specs.Values.{policy_for, contents_for};
ghost use Rattle.values.specs.Writing.{fault_in};
ghost use Rattle.values.specs.Inner.Looks.{limit_in, count_of, code_in, row_in, policy_given, policy_in, lead_of, stays_at, look_at, entry_looks, section_looks, told, first_look};

use crate::Values;
use book::sections::{count_amiss, past_listed, policy_field, row_amiss};
use book::{Amiss, Fault, Form, Row, Section};
use roster::Policy;

// A policy of a form without editions, whatever edition stands there: it is of the first.
fn of_first(policy: Policy) -> Policy
    ensures { result ≡ policy_for old.Old policy }
{
    Policy {
        edition: 1,
        ..policy
    }
}

// The policy that the fields of its form say.
fn policy_for(form: Form, policy: Policy) -> Policy
    ensures { result ≡ policy_for form policy }
{
    match form {
        Form::Old | Form::Persons => of_first(policy),
        Form::Editions => policy,
    }
}

// A policy, where so many permissions are listed.
fn policy_look(listed: usize, policy: Policy) -> Result<(), Amiss>
    ensures { result ≡ (policies true).faults listed None policy }
{
    if past_listed(listed, policy.task) {
        return Err(Amiss {
            fault: Fault::Task,
            field: 0,
        });
    }
    let Policy {
        task,
        away,
        crews,
        size,
        edition,
    } = policy;
    if let Err(refusal) = Policy::new(task, away, crews, size, edition) {
        return Err(Amiss {
            fault: Fault::Policy(refusal),
            field: policy_field(refusal),
        });
    }
    Ok(())
}

impl Values {
    // How many entries of the section are meant.
    pub(crate) fn count_of(&self, section: Section) -> usize
        ensures { result ≡ count_of self.now section }
    {
        match section {
            Section::Permissions => self.code_count,
            Section::Rows => self.row_count,
            Section::Policies => self.policy_count,
        }
    }

    // The code of this index, as a wider number.
    pub(crate) fn code_in(&self, i: usize) -> u32
        requires { i < permission_limit }
        ensures { result ≡ code_in self.now i }
    {
        u32::from(self.codes[i])
    }

    // The row of this index.
    pub(crate) fn row_in(&self, i: usize) -> Row
        requires { i < row_limit }
        ensures { result ≡ row_in self.now i }
    {
        self.rows[i]
    }

    // The policy of this index, as it stands in memory.
    fn policy_given(&self, i: usize) -> Policy
        requires { i < policy_limit }
        ensures { result ≡ policy_given self.now i }
    {
        self.policies[i]
    }

    // The policy of this index that is meant.
    pub(crate) fn policy_in(&self, i: usize) -> Policy
        requires { i < policy_limit }
        ensures { result ≡ policy_in self.now i }
    {
        policy_for(self.form, self.policy_given(i))
    }

    // The number that an entry starts with.
    fn lead(&self, section: Section, i: usize) -> u32
        requires { i < limit_in section }
        ensures { result ≡ lead_of self.now section i }
    {
        match section {
            Section::Permissions => self.code_in(i),
            Section::Rows => self.row_in(i).staff,
            Section::Policies => self.policy_in(i).task,
        }
    }

    // Whether that number is not above the one before. The first entry has none before it, so any number may come first.
    fn stays(&self, section: Section, i: usize) -> bool
        requires { i < limit_in section }
        ensures { result ≡ stays_at self.now section i }
    {
        if i == 0 {
            return false;
        }
        self.lead(section, i) <= self.lead(section, i - 1)
    }

    // A permission's code.
    fn look_code(&self, i: usize) -> Result<(), Amiss>
        requires { i < limit_in Section.Permissions }
        ensures { result ≡ look_at self.now Section.Permissions i }
    {
        if self.stays(Section::Permissions, i) {
            return Err(Amiss {
                fault: Fault::Code,
                field: 0,
            });
        }
        Ok(())
    }

    // A row.
    fn look_row(&self, i: usize) -> Result<(), Amiss>
        requires { i < limit_in Section.Rows }
        ensures { result ≡ look_at self.now Section.Rows i }
    {
        let low = self.stays(Section::Rows, i);
        let beyond = past_listed(self.code_count, self.row_in(i).holdings);
        row_amiss(self.form, low, beyond)
    }

    // An entry of the section.
    fn look_value(&self, section: Section, i: usize) -> Result<(), Amiss>
        requires { i < limit_in section }
        ensures { result ≡ look_at self.now section i }
    {
        match section {
            Section::Permissions => self.look_code(i),
            Section::Rows => self.look_row(i),
            Section::Policies => policy_look(self.code_count, self.policy_in(i)),
        }
    }

    // A section's entries, as many as are meant.
    fn look_values(&self, section: Section, count: usize) -> Result<(), Fault>
        requires { (count ≡ count_of self.now section) × (count ≤ limit_in section) }
        ensures { result ≡ first_look (entry_looks self.now section) }
    {
        for i in 0..count {
            if let Err(amiss) = self.look_value(section, i) {
                return Err(amiss.fault);
            }
        }
        Ok(())
    }

    // A section: its count, then its entries. A count out of range is told before any entry is looked at.
    fn look_section(&self, section: Section) -> Result<(), Fault>
        ensures { result ≡ first_look (section_looks self.now section) }
    {
        let count = self.count_of(section);
        if let Err(amiss) = count_amiss(section, count) {
            return Err(amiss.fault);
        }
        self.look_values(section, count)
    }

    // The first fault of all. Of which field it is plays no part.
    pub(crate) fn first_fault(&self) -> Result<(), Fault>
        ensures { result ≡ told (fault_in (contents_for self.now)) }
    {
        self.look_section(Section::Permissions)?;
        self.look_section(Section::Rows)?;
        self.look_section(Section::Policies)
    }
}
