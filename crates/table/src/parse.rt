// The values that a plain text says, or the first thing that is wrong with it. Nothing is promised of them but that reading ends: what is made of
// them is compared with the text. All the same, what is told here is what planners read.
use crate::draft::{Draft, Line, Part};
use crate::fit::{between, is_blank, is_over, piece};
use crate::policies::{end_policy, end_policy_heading, read_policy_cell, read_policy_heading};
use crate::rows::{end_row, end_row_heading, read_row_cell, read_row_heading};
use crate::{Trouble, What};
use book::POLICIES;
use roster::Policy;
use values::Values;

// A cell that counts, in whichever part.
fn read_kept(draft: &mut Draft, column: usize, cell: &[u8]) -> Result<(), Trouble> {
    match draft.part {
        Part::RowsHead => read_row_heading(draft, column, cell),
        Part::Rows => read_row_cell(draft, column, cell),
        Part::PoliciesHead => read_policy_heading(draft, column, cell),
        Part::Policies | Part::End => read_policy_cell(draft, column, cell),
    }
}

// A cell without a heading, which has to be empty. Past the last column of the heading there is none.
fn read_headless(draft: &Draft, column: usize, cell: &[u8], is_past: bool) -> Result<(), Trouble> {
    if cell.is_empty() {
        Ok(())
    } else if is_past {
        Err(draft.wrong(column, What::TooManyCells))
    } else {
        Err(draft.wrong(column, What::NoHeading))
    }
}

// A cell under its heading.
fn read_cell(
    draft: &mut Draft,
    column: usize,
    heading: &[u8],
    cell: &[u8],
    is_past: bool,
) -> Result<(), Trouble> {
    match heading {
        [] => read_headless(draft, column, cell, is_past),
        [b'#', ..] => Ok(()),
        _ => {
            read_kept(draft, column, cell)?;
            draft.line.cells = draft.line.cells.saturating_add(1);
            Ok(())
        }
    }
}

// All cells of a line under those of its heading. A `while` that steps by pieces, as that of `put_fitted`, which says why.
fn read_cells(draft: &mut Draft, heading: &[u8], line: &[u8]) -> Result<(), Trouble> {
    let mut column: usize = 0;
    let mut h = 0;
    let mut c = 0;
    while !is_over(heading, h, line, c) {
        let above = piece(heading, h, b',');
        let under = piece(line, c, b',');
        column = column.saturating_add(1);
        read_cell(
            draft,
            column,
            between(heading, h, above.end),
            between(line, c, under.end),
            h >= heading.len(),
        )?;
        h = above.next;
        c = under.next;
    }
    Ok(())
}

// Before the cells of a line: whether there may be such a line.
fn begin_line(draft: &Draft) -> Result<(), Trouble> {
    match draft.part {
        Part::Rows if draft.values.row_count >= Policy::ROWS => {
            Err(draft.wrong(0, What::TooManyRows))
        }
        Part::Policies if draft.values.policy_count >= POLICIES => {
            Err(draft.wrong(0, What::TooManyPolicies))
        }
        Part::End => Err(draft.wrong(0, What::ThirdHeading)),
        _ => Ok(()),
    }
}

// After the cells of a line.
fn end_line(draft: &mut Draft) -> Result<(), Trouble> {
    match draft.part {
        Part::RowsHead => end_row_heading(draft),
        Part::Rows => {
            end_row(draft);
            Ok(())
        }
        Part::PoliciesHead => end_policy_heading(draft),
        Part::Policies | Part::End => end_policy(draft),
    }
}

// A blank line.
fn end_part(draft: &mut Draft) {
    match draft.part {
        Part::Rows => draft.part = Part::PoliciesHead,
        Part::Policies => draft.part = Part::End,
        _ => {}
    }
}

// Whether the next line that is not blank is a heading.
fn awaits_heading(draft: &Draft) -> bool {
    matches!(draft.part, Part::RowsHead | Part::PoliciesHead | Part::End)
}

// A line more, under its heading.
fn read_line(draft: &mut Draft, heading: &[u8], line: &[u8]) -> Result<(), Trouble> {
    draft.line = Line::numbered(draft.line.number.saturating_add(1));
    if is_blank(line) {
        end_part(draft);
        return Ok(());
    }
    begin_line(draft)?;
    read_cells(draft, heading, line)?;
    end_line(draft)
}

// At the end of the text: both headings must have come.
fn end(draft: &Draft) -> Result<(), Trouble> {
    match draft.part {
        Part::RowsHead => Err(Trouble::whole(What::NoTable)),
        Part::Rows | Part::PoliciesHead => Err(Trouble::whole(What::NoPolicies)),
        Part::Policies | Part::End => Ok(()),
    }
}

// What a plain text says. Where a heading is waited for the line is one, and its own. A `while` that steps by lines, as that of `put_tidy`.
pub(crate) fn parse(text: &[u8]) -> Result<Values, Trouble> {
    let mut draft = Draft::none();
    let mut heading: &[u8] = &[];
    let mut i = 0;
    while i < text.len() {
        let found = piece(text, i, b'\n');
        let line = between(text, i, found.end);
        if awaits_heading(&draft) {
            heading = line;
        }
        read_line(&mut draft, heading, line)?;
        i = found.next;
    }
    end(&draft)?;
    Ok(draft.values)
}
