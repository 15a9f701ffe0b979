// The lines of a plain text fitted to their headings. specs/Understood says as what they are written, specs/Inner/Fitting what each function answers.
ghost use Rattle.std.specs.Prelude.{◌≡◌, ◌+◌, ◌-◌, ◌≤◌, [], ◌∷◌, ◌++◌, length};
ghost use Rattle.text.specs.Text.{newline, Appended};
ghost use Rattle.text.specs.Cut.{ended};
ghost use Rattle.table.specs.Understood.{blank, under, fitted, tidy};
ghost use Rattle.table.specs.Inner.Fitting.{between as Fitting·between, Within, HeadingIn, IsPiece, IsOver, kept_if, cell_if, cells_after, gap_if, TakesLine};

use crate::{Piece, Span, Turn};

// The piece that begins at a place and goes up to the next mark, or to the end. `position` in `&text[at..]` is no plainer: it counts from `at`, and both
// places would be sums.
pub(crate) fn piece(text: &[u8], at: usize, mark: u8) -> Piece
    requires { at ≤ length text.now }
    ensures { IsPiece text.now at mark result }
{
    for end in at..text.len() {
        if text[end] == mark {
            return Piece { end, next: end + 1 };
        }
    }
    Piece {
        end: text.len(),
        next: text.len(),
    }
}

// From one place up to another.
pub(crate) fn between(text: &[u8], from: usize, to: usize) -> &[u8]
    requires { Within from to text.now }
    ensures { result.now ≡ Fitting·between from to text.now }
{
    &text[from..to]
}

// Whether neither line has a cell left.
pub(crate) fn is_over(heading: &[u8], h: usize, line: &[u8], c: usize) -> bool
    ensures { IsOver result ((length heading.now - h) + (length line.now - c)) }
{
    heading.len() <= h && line.len() <= c
}

// Whether a line has nothing but empty cells.
pub(crate) fn is_blank(line: &[u8]) -> bool
    ensures { result ≡ blank line.now }
{
    line.iter().all(|byte| *byte == b',')
}

// Whether a cell stays under its heading.
#[tactic(auto, unfolding(crate::specs::Understood::under))]
fn stays(heading: &[u8], cell: &[u8]) -> bool
    ensures { under heading.now cell.now ≡ kept_if result cell.now }
{
    match heading {
        [] => !cell.is_empty(),
        [b'#', ..] => false,
        _ => true,
    }
}

// A cell, if it stays, behind a comma where cells stand before it.
fn put_cell(out: &mut [u8], at: usize, begun: bool, stays: bool, cell: &[u8]) -> usize
    ensures { Appended (cell_if stays begun cell.now) out.old at out.new result }
{
    if !stays {
        return at;
    }
    if begun {
        let next = text::put(out, at, b',');
        return text::word(out, next, cell);
    }
    text::word(out, at, cell)
}

// The end of a line; a dash where no cell stands in it.
fn put_end(out: &mut [u8], at: usize, begun: bool) -> usize
    ensures { Appended (cells_after begun [] ++ (newline ∷ [])) out.old at out.new result }
{
    if begun {
        return text::put(out, at, b'\n');
    }
    text::word(out, at, b"-\n")
}

// The cells of a line under those of its heading, as a line. A `while` that steps by pieces of both and counts no index: an iterator of pairs of pieces would
// be a type with laws of its own, which is longer than its two loops.
fn put_fitted(heading: &[u8], line: &[u8], out: &mut [u8], at: usize) -> usize
    ensures { Appended (fitted heading.now line.now ++ (newline ∷ [])) out.old at out.new result }
{
    let mut next = at;
    let mut begun = false;
    let mut h = 0;
    let mut c = 0;
    while !is_over(heading, h, line, c) {
        let above = piece(heading, h, b',');
        let under = piece(line, c, b',');
        let cell = between(line, c, under.end);
        let kept = stays(between(heading, h, above.end), cell);
        next = put_cell(out, next, begun, kept, cell);
        begun |= kept;
        h = above.next;
        c = under.next;
    }
    put_end(out, next, begun)
}

// The empty line before a heading, unless it is the first.
fn put_gap(out: &mut [u8], at: usize, begun: bool) -> usize
    ensures { Appended (ended (gap_if begun)) out.old at out.new result }
{
    if begun {
        return text::put(out, at, b'\n');
    }
    at
}

// A line at its turn.
fn take_line(text: &[u8], line: Span, out: &mut [u8], turn: Turn) -> Turn
    requires { Within line.from line.to text.now × HeadingIn turn.heading text.now }
    ensures { TakesLine text.now (Fitting·between line.from line.to text.now) out.old out.new turn result }
{
    let cells = between(text, line.from, line.to);
    if is_blank(cells) {
        return Turn {
            heading: None,
            ..turn
        };
    }
    let Some(heading) = turn.heading else {
        let gap = put_gap(out, turn.next, turn.begun);
        let next = put_fitted(cells, cells, out, gap);
        return Turn {
            next,
            begun: true,
            heading: Some(line),
        };
    };
    let above = between(text, heading.from, heading.to);
    let next = put_fitted(above, cells, out, turn.next);
    Turn { next, ..turn }
}

// A plain text as it is understood, at the front of a buffer. A `while` that steps by lines and counts no index: the place of a line is what `take_line`
// keeps of a heading.
pub(crate) fn put_tidy(text: &[u8], out: &mut [u8]) -> usize
    ensures { Appended (tidy text.now) out.old 0 out.new result }
{
    let mut turn = Turn {
        next: 0,
        begun: false,
        heading: None,
    };
    let mut i = 0;
    while i < text.len() {
        let line = piece(text, i, b'\n');
        let span = Span {
            from: i,
            to: line.end,
        };
        turn = take_line(text, span, out, turn);
        i = line.next;
    }
    turn.next
}
