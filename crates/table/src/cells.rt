// The cells of a table: numbers and marks.
use crate::draft::Draft;
use crate::{Trouble, What};

// The number that the cell is, if it is one of 32 bits, without a 0 or a sign in front.
pub(crate) fn number_of(cell: &[u8]) -> Option<u32> {
    if matches!(cell, [b'0', _, ..] | [b'+', ..]) {
        return None;
    }
    str::from_utf8(cell).ok()?.parse().ok()
}

// The number that the cell is, if it is one from the first to the last.
pub(crate) fn number_in(cell: &[u8], first: u32, last: u32) -> Option<u32> {
    number_of(cell).filter(|n| first <= *n && *n <= last)
}

// The permission code that the cell is, if it is one.
pub(crate) fn code_of(cell: &[u8]) -> Option<u16> {
    u16::try_from(number_of(cell)?).ok()
}

// A mark for a permission, or none.
pub(crate) fn read_mark(draft: &mut Draft, column: usize, cell: &[u8]) -> Result<(), Trouble> {
    match cell {
        [] => {}
        [b'x'] => draft.line.marks |= draft.line.weight,
        _ => return Err(draft.wrong(column, What::Mark)),
    }
    draft.line.weight <<= 1;
    Ok(())
}
