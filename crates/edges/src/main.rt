// Runs every edge that the rules list: the questions, the reader of the roster book, the parts of a book, the sheet, the writer and the live roster.
// Each reply is compared with one that is written out in data/, in *.cases or as a history (history.rt), and never made by the code under test. For
// each group of cases it prints how many comparisons were made and how many differ, which has to be none; of what is wrong on purpose (planted.*) all
// differ, and of those the first is shown as any that differs would be.
#![tactic(auto)]

mod asked;
mod books;
mod cases;
mod draft;
mod explained;
mod history;
mod line;
mod listed;
mod pages;
mod parts;
mod reader;
mod sheets;
mod words;

use std::io;

const CASES: [&str; 7] = [
    "questions.cases",
    "books.cases",
    "parts.cases",
    "sheets.cases",
    "pages.cases",
    "reasons.cases",
    "editions.cases",
];

fn main(rt: HostRuntime) -> io::Result<()> {
    for file in CASES {
        cases::show_file(&rt, file)?;
    }
    history::show_file(&rt, "a live roster, one history", "roster-07.txt")?;
    history::show_file(&rt, "a live roster at its edges", "roster.history")?;
    cases::show_file(&rt, "planted.cases")?;
    history::show_file(&rt, "planted lines of a history", "planted.history")
}
