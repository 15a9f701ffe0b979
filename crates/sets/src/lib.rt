// A mask is a set: bit i of the mask says whether i is a member. What sets are stands in specs/Mask.antt and specs/Members.antt, the laws of
// them in specs/Laws/ and proofs/Laws/; here are the few functions that the crates above call.
#![tactic(auto)]

ghost use Rattle.std.specs.Prelude.{◌≡◌, ◌-◌, ◌^◌, min};
ghost use Rattle.std.specs.Int.Count.{ones, count_trailing_zeros};
ghost use Rattle.std.specs.Iterator.{YieldsFirst, item_count};
ghost use Rattle.sets.specs.Members.{members};

// How many members the set has.
pub fn size(set: u64) -> u32
    ensures { result ≡ ones set }
{
    set.count_ones()
}

// The least member of a set; 64 if it is empty. A function of its own, so that its reply can be cast with no bound to prove.
pub fn least(set: u64) -> u32
    ensures { result ≡ count_trailing_zeros 64 set }
{
    set.trailing_zeros()
}

// The same within 32 numbers; 32 if the mask is empty. The two stay apart: a trait would hold both bodies again, each with its contract.
pub fn lowest(mask: u32) -> u32
    ensures { result ≡ count_trailing_zeros 32 mask }
{
    mask.trailing_zeros()
}

// The set of all numbers below n, as far as the width goes. A shift by the width would be an error.
pub fn below(n: usize) -> u64
    ensures { result ≡ 2 ^ min n 64 - 1 }
{
    if n >= 64 {
        return !0u64;
    }
    (1u64 << n) - 1
}

// The members of a set, the least first: what is left of them.
#[derive(Clone, Copy)]
pub struct Members {
    pub left: u64,
}

impl Members {
    // All members of the set.
    pub fn of(set: u64) -> Members
        ensures { result.left ≡ set }
    {
        Members { left: set }
    }
}

impl Iterator for Members {
    type Item = usize;

    ghost next_gives = { YieldsFirst (λ s. members 0 64 s.left) };

    ghost remaining = { item_count (λ s. members 0 64 s.left) };

    fn next(&mut self) -> Option<usize> {
        if self.left == 0 {
            return None;
        }
        let first = self.left.trailing_zeros();
        self.left ^= 1u64 << first;
        Some(first as usize)
    }
}
