// The values of a book, list by list, each filled up to its array's end with nothing.
ghost use Rattle.std.specs.Prelude.{◌≡◌};
ghost use Rattle.sets.specs.Arrays.{tabulate};
ghost use Rattle.roster.specs.Limits.{row_limit};
ghost use Rattle.book.specs.Layout.{permission_limit, policy_limit};
ghost use Rattle.book.specs.Parts.{code_at, row_at, policy_in};
ghost use Rattle.values.specs.Inner.Gathered.{code_or, row_or, policy_or};

use book::{PERMISSIONS, POLICIES, Row, Starts};
use roster::Policy;
use std::array;

// What stands where no policy is.
pub(crate) const UNASKED: Policy = Policy {
    task: 0,
    away: 0,
    crews: 0,
    size: 0,
    edition: 0,
};

// All codes.
pub(crate) fn all_codes(book: &[u8], starts: Starts) -> [u16; PERMISSIONS]
    ensures { result ≡ tabulate permission_limit (λ i. code_or (code_at book.now starts i)) }
{
    array::from_fn(|i| book::code_at(book, starts, i).unwrap_or(0))
}

// All rows.
pub(crate) fn all_rows(book: &[u8], starts: Starts) -> [Row; Policy::ROWS]
    ensures { result ≡ tabulate row_limit (λ i. row_or (row_at book.now starts i)) }
{
    array::from_fn(|i| book::row_at(book, starts, i).unwrap_or(Row::NOBODY))
}

// All policies.
pub(crate) fn all_policies(book: &[u8], start: usize) -> [Policy; POLICIES]
    ensures { result ≡ tabulate policy_limit (λ i. policy_or (policy_in book.now start i)) }
{
    array::from_fn(|i| book::policy_in(book, start, i).unwrap_or(UNASKED))
}
