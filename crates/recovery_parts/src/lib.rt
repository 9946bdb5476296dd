// What is told of a list that is recovered from a tree, and the copy of it (document 02, W7).
#![tactic(auto)]

ghost use Rattle.std.specs.Prelude.{◌≡◌, []};
ghost use Rattle.refusal.specs.Checked.{answer_of};
ghost use Rattle.expander.specs.Expands.{columns};
ghost use Rattle.recovery_parts.specs.Parts.{bytes_of, judged_for, told_of, copied, Holds};

use builder::Size;
use refusal::{Reason, Refusal};

// How many bytes of a tree were written.
pub fn bytes_built(built: Result<Size, Refusal>) -> usize
    ensures { result ≡ bytes_of (answer_of built) }
{
    built.map_or(0, |size| size.bytes)
}

// Of n entries that a plan lists which writes the tree or not, in tables that have room for them or are full before. A plan that writes the tree is asked
// for first, then room for its list.
pub fn judge(planned: bool, full: bool, n: usize) -> Result<usize, Refusal>
    ensures { answer_of result ≡ judged_for planned full n }
{
    match (planned, full) {
        (false, _) => Err(Reason::OtherOrigin.at(0)),
        (true, true) => Err(Reason::ListFull.at(0)),
        (true, false) => Ok(n),
    }
}

// As many entries as are told.
pub fn entries_told(listed: Result<usize, Refusal>) -> usize
    ensures { result ≡ told_of (answer_of listed) }
{
    listed.unwrap_or(0)
}

// Writes the first n entries of some list tables to the fronts of others.
pub fn copy_list(
    n: usize,
    from_conditions: &[u64],
    from_actions: &[u8],
    from_parents: &[u16],
    from_depths: &[u16],
    conditions: &mut [u64],
    actions: &mut [u8],
    parents: &mut [u16],
    depths: &mut [u16],
)
    requires { Holds n (columns from_conditions.now [] from_actions.now from_parents.now from_depths.now)
        × Holds n (columns conditions.old [] actions.old parents.old depths.old) }
    ensures { columns conditions.new [] actions.new parents.new depths.new
        ≡ copied n (columns from_conditions.now [] from_actions.now from_parents.now from_depths.now)
        (columns conditions.old [] actions.old parents.old depths.old) }
{
    // In a loop of its own, and not as slices, so that nothing is asked of the C library.
    for i in 0..n {
        conditions[i] = from_conditions[i];
        actions[i] = from_actions[i];
        parents[i] = from_parents[i];
        depths[i] = from_depths[i];
    }
}
