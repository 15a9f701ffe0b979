// The words. The buffer and its place are parameters, as text says. Each function writes what it is named for at a place of the buffer and answers the place behind it.
use roster::Policy;

// What stands before a name: nothing before the first, "and" before the last, else a comma.
fn joint(out: &mut [u8], at: usize, first: bool, last: bool) -> usize {
    if first {
        return at;
    }
    if last {
        return text::word(out, at, b" and ");
    }
    text::word(out, at, b", ")
}

// The number of the lowest person of what is left of a set, if that is the one whose turn it is.
fn name(out: &mut [u8], at: usize, first: bool, left: u64, number: u32) -> usize {
    if left % 2 == 0 {
        return at;
    }
    let joined = joint(out, at, first, left == 1);
    text::decimal(out, joined, u64::from(number))
}

// The persons of a set by their numbers, in their order.
fn names(out: &mut [u8], at: usize, numbers: &[u32; Policy::ROWS], set: u64) -> usize {
    let mut next = at;
    let mut left = set;
    for &number in numbers {
        next = name(out, next, next == at, left, number);
        left /= 2;
    }
    next
}

fn people(out: &mut [u8], at: usize, numbers: &[u32; Policy::ROWS], set: u64) -> usize {
    if set == 0 {
        return text::word(out, at, b"nobody");
    }
    names(out, at, numbers, set)
}

// Who is away.
pub(crate) fn away(out: &mut [u8], at: usize, numbers: &[u32; Policy::ROWS], absent: u64) -> usize {
    let with = text::word(out, at, b"with ");
    let named = people(out, with, numbers, absent);
    text::word(out, named, b" away, ")
}

// How many people hold the permission that is scarce.
fn holding(out: &mut [u8], at: usize, count: u64) -> usize {
    if count == 0 {
        return text::word(out, at, b"nobody present holds");
    }
    let only = text::word(out, at, b"only ");
    let counted = text::decimal(out, only, count);
    if count == 1 {
        return text::word(out, counted, b" person present holds");
    }
    text::word(out, counted, b" people present hold")
}

// Reason 1: so many of those present hold the permission with this code, and each crew needs one.
pub(crate) fn scarce(out: &mut [u8], at: usize, count: u64, code: u64, crews: u64) -> usize {
    let held = holding(out, at, count);
    let called = text::word(out, held, b" permission");
    let coded = text::number(out, called, b' ', code);
    let wanted = text::word(out, coded, b", and ");
    let needed = text::decimal(out, wanted, crews);
    if crews == 1 {
        return text::word(out, needed, b" is needed: train");
    }
    text::word(out, needed, b" are needed: train")
}

// How large a crew may be, of which anyone may be one alone; nothing where there is no limit.
fn at_most(out: &mut [u8], at: usize, size: u32) -> usize {
    if size >= Policy::SIZE {
        return at;
    }
    if size == 1 {
        return text::word(out, at, b" of 1");
    }
    let most = text::word(out, at, b" of at most ");
    text::decimal(out, most, u64::from(size))
}

// How large a crew may be that has two members at least.
fn from_two(out: &mut [u8], at: usize, size: u32) -> usize {
    if size >= Policy::SIZE {
        return text::word(out, at, b" of 2 or more");
    }
    let two = text::word(out, at, b" of 2");
    if size == 2 {
        return two;
    }
    let to = text::word(out, two, b" to ");
    text::decimal(out, to, u64::from(size))
}

// How large a crew may be.
fn within(out: &mut [u8], at: usize, policy: Policy) -> usize {
    if roster::least_members(policy.edition) < 2 {
        return at_most(out, at, policy.size);
    }
    from_two(out, at, policy.size)
}

// Reason 2. By an edition that asks for two members a crew of one is none, whoever is there.
pub(crate) fn no_crew(out: &mut [u8], at: usize, policy: Policy) -> usize {
    if policy.size < roster::least_members(policy.edition) {
        return text::word(
            out,
            at,
            b"crews have at most 1 member, and edition 2 asks for 2: enlarge crews",
        );
    }
    let crew = text::word(out, at, b"not even one crew");
    let limited = within(out, crew, policy);
    text::word(
        out,
        limited,
        b" can be formed: enlarge crews or train across",
    )
}

// Reason 3.
pub(crate) fn overlap(out: &mut [u8], at: usize, policy: Policy) -> usize {
    let crew = text::word(out, at, b"one crew");
    let limited = within(out, crew, policy);
    let formed = text::word(out, limited, b" can be formed, but not ");
    let counted = text::decimal(out, formed, policy.crews as u64);
    text::word(out, counted, b" at the same time: hire")
}

// It is proved that this does not happen.
pub(crate) fn unexplained(out: &mut [u8], at: usize) -> usize {
    text::word(
        out,
        at,
        b"no reason was found, though it is proved that there is one: the program is at fault",
    )
}
