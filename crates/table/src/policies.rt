// The policies of a table and their heading.
use crate::cells::{code_of, number_in, read_mark};
use crate::draft::{Draft, Part};
use crate::rows::has_code;
use crate::{Trouble, What};
use book::{Form, POLICIES};
use roster::Policy;

// The permissions are those of the rows' heading, in the same order.
fn read_code_again(draft: &mut Draft, column: usize, cell: &[u8]) -> Result<(), Trouble> {
    let Some(code) = code_of(cell) else {
        return Err(draft.wrong(column, What::NoCode));
    };
    let at = draft.line.listed;
    draft.line.listed = at.saturating_add(1);
    if at < draft.values.code_count && draft.values.codes.get(at) == Some(&code) {
        return Ok(());
    }
    if has_code(&draft.values, code) {
        return Err(draft.wrong(column, What::PermissionOrder));
    }
    Err(draft.wrong(column, What::OtherPermission))
}

// The edition's column may stand before the permissions, beside person numbers.
fn read_edition_heading(draft: &mut Draft, column: usize) -> Result<(), Trouble> {
    if let Form::Old = draft.values.form {
        return Err(draft.wrong(column, What::EditionAlone));
    }
    draft.values.form = Form::Editions;
    Ok(())
}

pub(crate) fn read_policy_heading(
    draft: &mut Draft,
    column: usize,
    cell: &[u8],
) -> Result<(), Trouble> {
    match (draft.line.cells, cell) {
        (0, b"s") | (1, b"d") | (2, b"t") => Ok(()),
        (0, _) => Err(draft.wrong(column, What::NoAway)),
        (1, _) => Err(draft.wrong(column, What::NoCrews)),
        (2, _) => Err(draft.wrong(column, What::NoSize)),
        (3, b"edition") => read_edition_heading(draft, column),
        _ => read_code_again(draft, column, cell),
    }
}

// A number from the first to the last; anything else is wrong in this way.
fn number_cell(
    draft: &Draft,
    column: usize,
    cell: &[u8],
    first: u32,
    last: u32,
    what: What,
) -> Result<u32, Trouble> {
    number_in(cell, first, last).ok_or(draft.wrong(column, what))
}

pub(crate) fn read_policy_cell(
    draft: &mut Draft,
    column: usize,
    cell: &[u8],
) -> Result<(), Trouble> {
    match (draft.line.cells, draft.values.form) {
        (0, _) => draft.line.policy.away = number_cell(draft, column, cell, 0, 64, What::Away)?,
        (1, _) => {
            draft.line.policy.crews = number_cell(draft, column, cell, 1, 8, What::Crews)? as usize;
        }
        (2, _) => draft.line.policy.size = number_cell(draft, column, cell, 1, 64, What::Size)?,
        (3, Form::Editions) => {
            draft.line.policy.edition = number_cell(draft, column, cell, 1, 2, What::Edition)?;
        }
        _ => return read_mark(draft, column, cell),
    }
    Ok(())
}

pub(crate) fn end_policy_heading(draft: &mut Draft) -> Result<(), Trouble> {
    match draft.line.cells {
        0 => return Err(draft.wrong(0, What::NoAway)),
        1 => return Err(draft.wrong(0, What::NoCrews)),
        2 => return Err(draft.wrong(0, What::NoSize)),
        _ => {}
    }
    if draft.line.listed < draft.values.code_count {
        return Err(draft.wrong(0, What::PermissionMissing));
    }
    draft.part = Part::Policies;
    Ok(())
}

pub(crate) fn end_policy(draft: &mut Draft) -> Result<(), Trouble> {
    if draft.line.marks == 0 {
        return Err(draft.wrong(0, What::NothingAsked));
    }
    let count = draft.values.policy_count;
    if count < POLICIES {
        draft.values.policies[count] = Policy {
            task: draft.line.marks,
            ..draft.line.policy
        };
        draft.values.policy_count = count + 1;
    }
    Ok(())
}
