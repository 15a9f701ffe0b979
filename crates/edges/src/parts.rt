// The parts of a book, as cases ask for them: `row 0 of BOOK`, `accounts of BOOK`, `policies of BOOK`, `policy 0 of BOOK`. Past the last row or policy
// there is `none`, and a refused book has none.
use crate::line::Line;

// The row with this number, by the view: its staff number, its person number and its holdings.
pub(crate) fn row(book: &[u8], row: u64) -> Line {
    match book::row_by_number(book, row as usize) {
        Some(found) => {
            Line::of(format_args!("{} {} {}", found.staff, found.person, found.holdings))
        }
        None => Line::of("none"),
    }
}

// The number of rows of the book's accounts, and what stands in their first five places and in the last: the holdings and the person number.
pub(crate) fn accounts(book: &[u8]) -> Line {
    let accounts = book::accounts_of(book);
    let mut line = Line::of(accounts.rows);
    let rows = accounts.holdings.iter().zip(accounts.persons.iter());
    for (row, (held, person)) in rows.enumerate() {
        if row < 5 || row == 63 {
            write!(line, " {held}:{person}");
        }
    }
    line
}

pub(crate) fn policy_count(book: &[u8]) -> Line {
    Line::of(book::policy_count(book))
}

// The policy with this index: P;s,d,t;E.
pub(crate) fn policy(book: &[u8], index: u64) -> Line {
    match book::policy_at(book, index as usize) {
        Some(found) => {
            let (crews, size, edition) = (found.crews, found.size, found.edition);
            Line::of(format_args!("{};{},{crews},{size};{edition}", found.task, found.away))
        }
        None => Line::of("none"),
    }
}
