// Sets of facts in a 64-bit mask: bit i stands for fact i (document 01).
#![tactic(auto, unfolding(crate::specs::Sets::subset, crate::specs::Sets::intersects, crate::specs::Sets::union, crate::specs::Sets::difference, crate::specs::Sets::others))]

ghost use Rattle.std.specs.Prelude.{◌≡◌};
ghost use Rattle.masks.specs.Sets.{subset, intersects, union, difference, others, within};

// Is each fact of `a` a fact of `b`?
pub fn is_subset(a: u64, b: u64) -> bool
    ensures { result ≡ subset a b }
{
    a & b == a
}

// Have `a` and `b` a fact in common?
pub fn share_fact(a: u64, b: u64) -> bool
    ensures { result ≡ intersects a b }
{
    a & b != 0
}

pub fn join(a: u64, b: u64) -> u64
    ensures { result ≡ union a b }
{
    a | b
}

// The facts of `a` that are none of `b`.
pub fn without(a: u64, b: u64) -> u64
    ensures { result ≡ difference a b }
{
    a - (a & b)
}

// Every fact but those of `a`. A set is a part of `a` exactly where it shares none of them: who holds many sets against one finds them once.
pub fn others(a: u64) -> u64
    ensures { result ≡ others a }
{
    without(u64::MAX, a)
}

// Has `a` no fact at or above `facts`? A mask has 64 bits, so with 64 facts or more it has none.
#[tactic(auto, using(crate::specs::Laws::word_within, crate::specs::Laws::within_shift))]
pub fn is_within(facts: u8, a: u64) -> bool
    ensures { result ≡ within facts a }
{
    if facts >= 64 {
        return true;
    }
    a >> facts == 0
}
