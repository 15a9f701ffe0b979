// The rows of a table and their heading: staff numbers, person numbers, and what is held. A cell and its column come from the loop over a line's cells: a
// value of the two would be made for each cell.
use crate::cells::{code_of, number_of, read_mark};
use crate::draft::{Draft, Part};
use crate::{Trouble, What};
use book::{Form, PERMISSIONS, Row};
use roster::Policy;
use values::Values;

// Whether the code is listed.
pub(crate) fn has_code(values: &Values, code: u16) -> bool {
    values
        .codes
        .iter()
        .take(values.code_count)
        .any(|listed| *listed == code)
}

// The code before the next; 0 for the first.
fn last_code(values: &Values) -> u16 {
    match values.code_count.checked_sub(1) {
        Some(last) => values.codes.get(last).copied().unwrap_or(0),
        None => 0,
    }
}

// A code more.
fn read_code(draft: &mut Draft, column: usize, cell: &[u8]) -> Result<(), Trouble> {
    let Some(code) = code_of(cell) else {
        return Err(draft.wrong(column, What::NoCode));
    };
    let count = draft.values.code_count;
    if has_code(&draft.values, code) {
        return Err(draft.wrong(column, What::CodeTwice));
    }
    if count >= PERMISSIONS {
        return Err(draft.wrong(column, What::TooManyPermissions));
    }
    if code < last_code(&draft.values) {
        return Err(draft.wrong(column, What::CodeOrder));
    }
    draft.values.codes[count] = code;
    draft.values.code_count = count + 1;
    Ok(())
}

pub(crate) fn read_row_heading(
    draft: &mut Draft,
    column: usize,
    cell: &[u8],
) -> Result<(), Trouble> {
    match (draft.line.cells, cell) {
        (0, b"staff") => Ok(()),
        (0, _) => Err(draft.wrong(column, What::NoStaff)),
        (1, b"person") => {
            draft.values.form = Form::Persons;
            Ok(())
        }
        _ => read_code(draft, column, cell),
    }
}

// Whether a row has this staff number. Codes and staff numbers have a `has_` and a `last_` each: with a closure for the number it is no shorter.
fn has_staff(values: &Values, staff: u32) -> bool {
    values
        .rows
        .iter()
        .take(values.row_count)
        .any(|row| row.staff == staff)
}

// The staff number of the row before; 0 for the first row.
fn last_staff(values: &Values) -> u32 {
    match values.row_count.checked_sub(1) {
        Some(last) => values.rows.get(last).map_or(0, |row| row.staff),
        None => 0,
    }
}

// What is wrong where no staff number stands. Where the policies begin it is the empty line before them that is missing.
fn no_staff(cell: &[u8]) -> What {
    match cell {
        [b's'] => What::NoGap,
        _ => What::Staff,
    }
}

fn read_staff(draft: &mut Draft, column: usize, cell: &[u8]) -> Result<(), Trouble> {
    let Some(staff) = number_of(cell) else {
        return Err(draft.wrong(column, no_staff(cell)));
    };
    if has_staff(&draft.values, staff) {
        return Err(draft.wrong(column, What::StaffTwice));
    }
    if staff < last_staff(&draft.values) {
        return Err(draft.wrong(column, What::StaffOrder));
    }
    draft.line.staff = staff;
    draft.line.person = staff;
    Ok(())
}

fn read_person(draft: &mut Draft, column: usize, cell: &[u8]) -> Result<(), Trouble> {
    let Some(person) = number_of(cell) else {
        return Err(draft.wrong(column, What::Person));
    };
    draft.line.person = person;
    Ok(())
}

pub(crate) fn read_row_cell(draft: &mut Draft, column: usize, cell: &[u8]) -> Result<(), Trouble> {
    match (draft.line.cells, draft.values.form) {
        (0, _) => read_staff(draft, column, cell),
        (1, Form::Persons | Form::Editions) => read_person(draft, column, cell),
        _ => read_mark(draft, column, cell),
    }
}

pub(crate) fn end_row_heading(draft: &mut Draft) -> Result<(), Trouble> {
    if draft.line.cells == 0 {
        return Err(draft.wrong(0, What::NoStaff));
    }
    if draft.values.code_count == 0 {
        return Err(draft.wrong(0, What::NoPermission));
    }
    draft.part = Part::Rows;
    Ok(())
}

pub(crate) fn end_row(draft: &mut Draft) {
    let count = draft.values.row_count;
    if count < Policy::ROWS {
        draft.values.rows[count] = Row {
            staff: draft.line.staff,
            person: draft.line.person,
            holdings: draft.line.marks,
        };
        draft.values.row_count = count + 1;
    }
}
