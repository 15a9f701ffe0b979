// The cases stand in files, in groups: a line `# NAME`, and below it a line for each case, `QUESTION = WANTED`. Lines that begin with a space, and
// empty ones, are passed over. The files are a handle, lent to whoever needs them with the line that is read: one value of the two would be no plainer.
use crate::books::{TEXT, book_at, text};
use crate::line::{Line, TOLD};
use crate::words::{
    behind, byte_at, line_at, lines_from, next_line, next_word, number_at, word_at,
};
use crate::{asked, explained, listed, pages, parts, reader, sheets};
use questions::Way;
use std::io;
use std::rt::Files;

// No file here has more groups.
const GROUPS: usize = 100;

// What cases come to: how many comparisons they make, how many of them differ, and what came where the first of those did.
#[derive(Drop)]
pub struct Outcome {
    compared: u64,
    differ: u64,
    came: Option<Line>,
}

// What lines come to, and the first that differs.
#[derive(Drop)]
pub struct Tally<'a> {
    outcome: Outcome,
    first: Option<&'a [u8]>,
}

impl Outcome {
    pub(crate) fn none() -> Outcome {
        Outcome {
            compared: 0,
            differ: 0,
            came: None,
        }
    }

    // One comparison.
    pub(crate) fn one(same: bool, came: Line) -> Outcome {
        Outcome {
            compared: 1,
            differ: u64::from(!same),
            came: if same { None } else { Some(came) },
        }
    }

    // These too.
    pub(crate) fn add(&mut self, more: Outcome) {
        self.compared = self.compared.wrapping_add(more.compared);
        self.differ = self.differ.wrapping_add(more.differ);
        if self.came.is_none() {
            self.came = more.came;
        }
    }
}

impl<'a> Tally<'a> {
    pub(crate) fn none() -> Tally<'a> {
        Tally {
            outcome: Outcome::none(),
            first: None,
        }
    }

    // With what this line comes to.
    pub(crate) fn add(&mut self, line: &'a [u8], outcome: Outcome) {
        if self.first.is_none() && outcome.differ != 0 {
            self.first = Some(line);
        }
        self.outcome.add(outcome);
    }

    // "NAME: N compared, M differ"; where some differ, the first of them and what came.
    pub(crate) fn show(&self, rt: &impl Print, name: &[u8]) -> io::Result<()> {
        let Outcome {
            compared,
            differ,
            came,
        } = &self.outcome;
        rt.write_all(name)?;
        println!(rt; ": {compared} compared, {differ} differ")?;
        if let (Some(first), Some(came)) = (self.first, came) {
            print!(rt; "  first: ")?;
            rt.write_all(first)?;
            print!(rt; "\n  came: ")?;
            rt.write_all(came.bytes())?;
            println!(rt)?;
        }
        Ok(())
    }
}

// What came, for a case that makes one comparison and is of a book.
fn came_of_book(rt: &impl Files, case: &[u8]) -> Line {
    let book = book_at(rt, next_word(case));
    match word_at(case) {
        "book" => reader::read(book.book()),
        "sheet" => sheets::sheet(book.book()),
        "short" => sheets::short(book.book()),
        "again" => pages::again(book.book()),
        _ => Line::of("no such question"),
    }
}

// The same of a part of a book.
fn came_of_part(rt: &impl Files, case: &[u8]) -> Line {
    let asked = next_word(case);
    let (index, _) = number_at(asked);
    match word_at(case) {
        "accounts" => parts::accounts(book_at(rt, behind(case, "of")).book()),
        "policies" => parts::policy_count(book_at(rt, behind(case, "of")).book()),
        "row" => parts::row(book_at(rt, behind(asked, "of")).book(), index),
        _ => parts::policy(book_at(rt, behind(asked, "of")).book(), index),
    }
}

// What came, for a case that makes one comparison.
fn came(rt: &impl Files, case: &[u8]) -> Line {
    let asked = next_word(case);
    match word_at(case) {
        "skipping" => asked::policy(Way::Skipping, asked),
        "full" => asked::policy(Way::Full, asked),
        "named" => asked::named(asked),
        "why" => explained::why(asked),
        "writes" => pages::writes(rt, asked),
        "row" | "accounts" | "policies" | "policy" => came_of_part(rt, case),
        _ => came_of_book(rt, case),
    }
}

// What came, held against the line that is wanted.
pub(crate) fn compared(came: Line, wanted: &[u8]) -> Outcome {
    let same = came.bytes().len() < TOLD && came.bytes() == line_at(wanted);
    Outcome::one(same, came)
}

// By either search.
fn both(asked: &[u8], wanted: &[u8]) -> Outcome {
    let mut outcome = compared(asked::policy(Way::Skipping, asked), wanted);
    outcome.add(compared(asked::policy(Way::Full, asked), wanted));
    outcome
}

// What the case that stands here comes to.
fn outcome_of(rt: &impl Files, case: &[u8]) -> Outcome {
    let asked = next_word(case);
    let wanted = behind(case, "=");
    match word_at(case) {
        "cuts" => reader::cuts(word_at(asked)),
        "all" => listed::all(rt, word_at(asked)),
        "both" => both(asked, wanted),
        "prints" => {
            let book = book_at(rt, asked);
            compared(sheets::prints(rt, wanted, book.book()), wanted)
        }
        _ => compared(came(rt, case), wanted),
    }
}

// Where the group ends that the lines from here on are of.
fn group_end(text: &[u8]) -> &[u8] {
    let mut end = text;
    for line in lines_from(text) {
        if byte_at(line) == b'#' {
            return line;
        }
        end = next_line(line);
    }
    end
}

// The group whose name stands here, and where the next one does.
fn show_group<'a>(rt: &(impl Files + Print), group: &'a [u8]) -> io::Result<&'a [u8]> {
    let cases = next_line(group);
    let mut tally = Tally::none();
    for case in lines_from(cases) {
        match byte_at(case) {
            b'#' => break,
            b' ' | b'\n' => {}
            _ => tally.add(line_at(case), outcome_of(rt, case)),
        }
    }
    tally.show(rt, line_at(next_word(group)))?;
    Ok(group_end(cases))
}

// The groups of a file, behind what stands before the first.
pub(crate) fn show_file(rt: &(impl Files + Print), file: &str) -> io::Result<()> {
    let mut room = [0u8; TEXT];
    let mut group = group_end(text(rt, file, &mut room));
    for _ in 0..GROUPS {
        if group.is_empty() {
            break;
        }
        group = show_group(rt, group)?;
    }
    Ok(())
}
