// The last field of a line: sets of persons by their numbers, which go with the buffer from function to function; why these are parameters says text.
// Each function appends what its definition in specs/Lines.antt says.
ghost use Rattle.std.specs.Prelude.{◌≡◌, [], ◌∷◌, map, ◌<◌, ◌^◌, length, get_or};
ghost use Rattle.roster.specs.Limits.{row_limit, crew_limit};
ghost use Rattle.text.specs.Text.{Appended, space, dash, decimal, marked};
ghost use Rattle.lines.specs.Lines.{names, between_members, set_text, filled, between_crews, crews_text, sets_text};

use roster::{Policy, Reply, Verdict};
use sets::Members;

// A person's number after a mark.
fn member(out: &mut [u8], at: usize, numbers: &[u32; Policy::ROWS], mark: u8, row: usize) -> usize
    requires { row < row_limit }
    ensures { Appended (mark ∷ decimal (get_or numbers.now row 0)) out.old at out.new result }
{
    text::number(out, at, mark, u64::from(numbers[row]))
}

// The numbers of a set's persons in their order, the first after `mark`, the others after commas; nothing of an empty set.
fn members(out: &mut [u8], at: usize, numbers: &[u32; Policy::ROWS], mark: u8, set: u64) -> usize
    ensures { Appended (marked mark between_members (names numbers.now set)) out.old at out.new result }
{
    let mut next = at;
    let mut before = mark;
    for row in Members::of(set) {
        next = member(out, next, numbers, before, row);
        before = b',';
    }
    next
}

// The sets before the first that is empty, each as its members, the first after `mark`, the others after slashes.
fn crews(out: &mut [u8], at: usize, numbers: &[u32; Policy::ROWS], mark: u8, sets: &[u64]) -> usize
    ensures { Appended (marked mark between_crews (map (set_text numbers.now) (filled sets.now))) out.old at out.new result }
{
    let mut next = at;
    let mut before = mark;
    for &crew in sets {
        if crew == 0 {
            return next;
        }
        next = members(out, next, numbers, before, crew);
        before = b'/';
    }
    next
}

// A space and the `-` that stands for no set.
fn no_set(out: &mut [u8], at: usize) -> usize
    ensures { Appended (space ∷ dash ∷ []) out.old at out.new result }
{
    text::word(out, at, b" -")
}

// A set as its members after a space; `-` if it is empty.
fn one_set(out: &mut [u8], at: usize, numbers: &[u32; Policy::ROWS], set: u64) -> usize
    ensures { Appended (space ∷ set_text numbers.now set) out.old at out.new result }
{
    if set == 0 {
        no_set(out, at)
    } else {
        members(out, at, numbers, b' ', set)
    }
}

// A list of crews after a space; `-` if there is none. Two arms and not one of `[] | [0, ..]`: the proof would have to cite a name of the toolchain's own,
// which is no plainer.
fn all_crews(out: &mut [u8], at: usize, numbers: &[u32; Policy::ROWS], sets: &[u64]) -> usize
    ensures { Appended (space ∷ crews_text numbers.now sets.now) out.old at out.new result }
{
    match sets {
        [] => no_set(out, at),
        [0, ..] => no_set(out, at),
        _ => crews(out, at, numbers, b' ', sets),
    }
}

// The sets that go with the verdict, after a space.
pub(crate) fn sets_field(
    out: &mut [u8],
    at: usize,
    numbers: &[u32; Policy::ROWS],
    reply: Reply,
) -> usize
    requires { length reply.crews ≡ crew_limit }
    ensures { Appended (space ∷ sets_text numbers.now reply reply.verdict) out.old at out.new result }
{
    match reply.verdict {
        Verdict::Yes => all_crews(out, at, numbers, &reply.crews),
        Verdict::No => one_set(out, at, numbers, reply.blocker),
        _ => no_set(out, at),
    }
}
