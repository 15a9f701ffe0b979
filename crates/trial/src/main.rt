// The independent second program. It decides small tables by trying everything and computes units, first crews and the order of absences by
// a plain transcription of the rules, with code and a data layout of its own; of the libraries it takes the types and the questions, which it
// asks, and compares. It prints how many comparisons of each kind it made and how many differ, which has to be none; then, of wrong replies that it
// plants, how many the comparisons find, which has to be all. Of a kind that differs the first difference is shown. The live roster is held against a
// plain list in the same way.
#![tactic(auto)]

mod afternoon;
mod brute;
mod compare;
mod family;
mod filling;
mod known;
mod listed;
mod order;
mod persons;
mod plain;
mod planted;
mod question;
mod reason;
mod shown;

use compare::{Counts, Difference, KINDS, Kind, show};
use planted::Ground;
use std::io;

// What the first difference looks like, if there is one.
fn show_first(rt: &impl Print, first: Option<Difference>) -> io::Result<()> {
    match first {
        Some(difference) => println!(rt; "{difference}"),
        None => Ok(()),
    }
}

// A kind of comparison; where it differs, the table by which it did first is tried again.
fn show_kind(rt: &impl Print, kind: Kind, counts: &Counts) -> io::Result<()> {
    let tally = counts.tallies.of(kind as usize);
    show(rt, &kind, tally)?;
    let mut again = Counts::showing(Some(kind));
    if let Some(table) = tally.first {
        family::try_table(&mut again, table);
    }
    show_first(rt, again.first)
}

// "replies: yes N, no N, .."
fn show_replies(rt: &impl Print, counts: &Counts) -> io::Result<()> {
    let mut mark = ':';
    print!(rt; "replies")?;
    for (answer, count) in counts.replies() {
        print!(rt; "{mark} {answer} {count}")?;
        mark = ',';
    }
    println!(rt)
}

// A kind of comparison of planted replies, and what the first difference looks like.
fn show_planted(rt: &impl Print, ground: &Ground, kind: Kind) -> io::Result<()> {
    let mut counts = Counts::showing(Some(kind));
    ground.planted(&mut counts, kind);
    show(
        rt,
        &format_args!("planted {kind}"),
        counts.tallies.of(kind as usize),
    )?;
    show_first(rt, counts.first)
}

fn main(rt: HostRuntime) -> io::Result<()> {
    let mut counts = Counts::showing(None);
    family::try_all_small(&mut counts);
    family::try_all_drawn(&mut counts);
    for kind in KINDS {
        show_kind(&rt, kind, &counts)?;
    }
    show_replies(&rt, &counts)?;
    let ground = planted::example_ground();
    for kind in KINDS {
        show_planted(&rt, &ground, kind)?;
    }
    afternoon::show_all(&rt)
}
