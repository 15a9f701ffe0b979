// What is wrong with a table, in a planner's words. What writes does so at a place of the buffer and answers the place behind it; a table of
// words hands on what is none of its own. The words stand in groups, since no function of the project has more than 40 lines.
use table::{Trouble, What};

// "book: line 3, column 2: WORDS"; without a column where it is the whole line, and without either where it is the whole table.
pub(crate) fn line(out: &mut [u8], trouble: Trouble) -> usize {
    let begun = text::word(out, 0, b"book: ");
    let placed = place(out, begun, trouble.line, trouble.column);
    let told = text::word(out, placed, of_table(trouble.what).as_bytes());
    text::put(out, told, b'\n')
}

fn place(out: &mut [u8], at: usize, line: usize, column: usize) -> usize {
    if line == 0 {
        return at;
    }
    let called = text::word(out, at, b"line ");
    let counted = text::decimal(out, called, line as u64);
    if column == 0 {
        return text::word(out, counted, b": ");
    }
    let beside = text::word(out, counted, b", column ");
    let numbered = text::decimal(out, beside, column as u64);
    text::word(out, numbered, b": ")
}

fn of_table(what: What) -> &'static str {
    match what {
        What::TooLong => "the table has more than 65,536 bytes",
        What::NoTable =>
            "there is nothing but empty cells: the heading of the rows has to begin with staff",
        What::NoPolicies =>
            "the policies are missing: after the rows an empty line has to follow, and a heading that begins with s, d and t",
        What::NotUnderstood => "this is not understood as the table of a book",
        _ => of_codes(what),
    }
}

// the rows' heading
fn of_codes(what: What) -> &'static str {
    match what {
        What::NoStaff => "the heading of the rows has to begin with staff",
        What::NoCode =>
            "neither a permission code, a number of 0 to 65535 without spaces and without a 0 in front, nor the heading of a column for people, which begins with #",
        What::CodeTwice => "this permission code stands twice",
        What::CodeOrder =>
            "permission codes have to ascend, and this one is lower than the one before",
        What::NoPermission =>
            "there is no permission: the heading has to go on with at least one code",
        What::TooManyPermissions => "more than 32 permissions",
        _ => of_row(what),
    }
}

fn of_row(what: What) -> &'static str {
    match what {
        What::Staff =>
            "no staff number: it has to be a number of 0 to 4294967295, without spaces and without a 0 in front",
        What::StaffTwice => "this staff number stands twice",
        What::StaffOrder =>
            "staff numbers have to ascend, and this one is lower than the one before",
        What::Person =>
            "no person number: it has to be a number of 0 to 4294967295, without spaces and without a 0 in front",
        What::TooManyRows => "more than 64 rows",
        What::NoGap => "an empty line has to stand before the heading of the policies",
        _ => of_columns(what),
    }
}

// the policies' heading
fn of_columns(what: What) -> &'static str {
    match what {
        What::NoAway => "the heading of the policies has to begin with s",
        What::NoCrews => "the heading of the policies needs d behind s",
        What::NoSize => "the heading of the policies needs t behind d",
        What::EditionAlone => "edition can stand here only where the rows have a column person",
        What::OtherPermission => "the heading of the rows has no such permission",
        What::PermissionOrder => "the permissions have to stand as in the heading of the rows",
        What::PermissionMissing => "a permission is missing that the heading of the rows has",
        What::ThirdHeading => "nothing can follow the policies behind an empty line",
        _ => of_policy(what),
    }
}

fn of_policy(what: What) -> &'static str {
    match what {
        What::Away => "s, how many may be away, has to be a number of 0 to 64",
        What::Crews => "d, how many crews, has to be a number of 1 to 8",
        What::Size => "t, how many to a crew, has to be a number of 1 to 64",
        What::Edition => "the edition has to be 1 or 2",
        What::NothingAsked => "the task asks for nothing: at least one permission has to be marked",
        What::TooManyPolicies => "more than 32 policies",
        _ => of_cell(what),
    }
}

fn of_cell(what: What) -> &'static str {
    match what {
        What::Mark => "a mark has to be x, or the cell empty",
        What::TooManyCells => "the line has more cells than its heading",
        What::NoHeading => "the cell stands in a column without a heading",
        // every other is told above
        _ => "",
    }
}
