// The tree of an expansion list, written to bytes (document 01, "Expansion"; document 02, W10 and W12). The list is `paired` once its table has a 0x21:
// each condition is then written with both masks. The tree is that of one fitter: where an action is the other's, he waits.
#![tactic(auto)]

ghost use Rattle.std.specs.Prelude.{◌≡◌, Bool, List, ◌∷◌, ◌++◌, ℕ, ◌+◌, ◌*◌, ◌≤◌, length, drop};
ghost use Rattle.commands.specs.Commands.{JOB_LEAF_SIZE, PAIR_SIZE, MASK_WIDTH};
ghost use Rattle.numbers.specs.Numbers.{to_bytes};
ghost use Rattle.conditions.specs.declared.Condition.{Condition};
ghost use Rattle.conditions.specs.Condition.{condition_at};
ghost use Rattle.planning.specs.Expansion.{Entry};
ghost use Rattle.tree.specs.ReadTree.{max_children, count_width};
ghost use Rattle.licences.specs.Licences.{owned_by};
ghost use Rattle.flat.specs.TreeBytes.{condition_bytes, leaf_bytes, end_bytes, first_bytes, entry_bytes, later_entries, own_tree, tree_entries, entries_in, leaves_size, Puts};

use conditions::Condition;
use licences::Owner;

// A list, lent as its columns of conditions, second masks and actions. The second masks may be lent short: past their end nothing is to be absent.
#[derive(Clone, Copy)]
pub struct Entries<'a> {
    pub conditions: &'a [u64],
    pub absences: &'a [u64],
    pub actions: &'a [u8],
}

impl Entries<'_> {
    pub fn condition(self, i: usize) -> Condition
        ensures { result ≡ condition_at self.entry.conditions.now self.entry.absences.now i }
    {
        conditions::condition_at(self.conditions, self.absences, i)
    }
}

// ---- sizes, by the one table of commands

#[tactic(auto, using(crate::specs::TreeBytesLaws::condition_size_is))]
fn condition_size(paired: bool) -> usize
    ensures small { result ≤ PAIR_SIZE }
    ensures size { (c : Condition) → result ≡ length (condition_bytes paired c) }
{
    if paired {
        return commands::PAIR_SIZE;
    }
    commands::CONDITION_SIZE
}

#[tactic(auto, using(crate::specs::TreeBytesLaws::leaf_size_is))]
fn leaf_size(mine: bool) -> usize
    ensures small { result ≤ JOB_LEAF_SIZE }
    ensures size { (action : ℕ) → result ≡ length (leaf_bytes mine action) }
{
    if mine {
        return commands::JOB_LEAF_SIZE;
    }
    commands::WAITING_SIZE
}

// How many bytes the leaves take that stand for the actions of the entries after the first, in the fitter's tree.
#[tactic(auto, using(crate::specs::TreeBytesLaws::leaves_grown))]
pub fn leaves_size(n: usize, actions: &[u8], owner: Owner) -> usize
    requires { (1 ≤ n) × (n ≤ max_children) × (n ≤ length actions.now) }
    ensures { (result ≤ JOB_LEAF_SIZE * max_children) × ((conditions absences : List ℕ) → result
        ≡ leaves_size (owned_by owner.entry) (drop 1 (tree_entries conditions absences actions.now n))) }
{
    let mut size: usize = 0;
    for i in 1..n {
        size += leaf_size(owner.owns(actions[i]));
    }
    size
}

// How many bytes a tree of a list of so many entries takes, by the bytes of its leaves.
pub fn tree_size(paired: bool, n: usize, leaves: usize) -> usize
    requires { (1 ≤ n) × (n ≤ max_children) × (leaves ≤ JOB_LEAF_SIZE * max_children) }
    ensures { (mine : ℕ → Bool) (l : List (Entry Condition)) → length l ≡ n → leaves ≡ leaves_size mine (drop 1 l) → result ≡ length (own_tree mine paired l) }
{
    let condition = condition_size(paired);
    let first = commands::FALLBACK_SIZE + condition;
    let entry = commands::SEQUENCE_SIZE + condition;
    first + entry * (n - 1) + leaves + commands::END_OF_TREE_SIZE
}

// ---- the parts of a tree: each is put at an offset, and the offset past it is answered

// FALLBACK or SEQUENCE, with its count.
#[tactic(auto, using(crate::specs::TreeBytesLaws::branch_put), unfolding(numbers::specs::Numbers::to_bytes))]
fn put_branch(tree: &mut [u8], at: usize, byte: u8, count: u16) -> usize
    requires { at + length (byte ∷ to_bytes count_width count) ≤ length tree.old }
    ensures { Puts (byte ∷ to_bytes count_width count) at tree.old tree.new result }
{
    tree[at] = byte;
    numbers::write_u16(tree, at + commands::OPERANDS_AT, count);
    at + commands::FALLBACK_SIZE
}

// CONDITION, or what a PAIR begins with: the command and its first mask.
#[tactic(auto, using(crate::specs::TreeBytesLaws::mask_put), unfolding(numbers::specs::Numbers::to_bytes))]
fn put_mask(tree: &mut [u8], at: usize, byte: u8, mask: u64) -> usize
    requires { at + length (byte ∷ to_bytes MASK_WIDTH mask) ≤ length tree.old }
    ensures { Puts (byte ∷ to_bytes MASK_WIDTH mask) at tree.old tree.new result }
{
    tree[at] = byte;
    numbers::write_u64(tree, at + commands::OPERANDS_AT, mask);
    at + commands::CONDITION_SIZE
}

#[tactic(auto, unfolding(crate::specs::TreeBytes::condition_bytes, numbers::specs::Numbers::to_bytes))]
pub fn put_condition(tree: &mut [u8], at: usize, paired: bool, condition: Condition) -> usize
    requires { at + length (condition_bytes paired condition) ≤ length tree.old }
    ensures { Puts (condition_bytes paired condition) at tree.old tree.new result }
{
    if !paired {
        return put_mask(tree, at, commands::CONDITION, condition.present);
    }
    let absent_at = put_mask(tree, at, commands::PAIR, condition.present);
    numbers::write_u64(tree, absent_at, condition.absent);
    at + commands::PAIR_SIZE
}

// The leaf of an action: the action, or in the tree of the other fitter that he waits.
#[tactic(auto, using(crate::specs::TreeBytesLaws::leaf_size_is, crate::specs::TreeBytesLaws::action_put, crate::specs::TreeBytesLaws::waiting_put), unfolding(crate::specs::TreeBytes::leaf_bytes))]
pub fn put_leaf(tree: &mut [u8], at: usize, mine: bool, action: u8) -> usize
    requires { at + length (leaf_bytes mine action) ≤ length tree.old }
    ensures { Puts (leaf_bytes mine action) at tree.old tree.new result }
{
    if !mine {
        tree[at] = commands::WAITING;
        return at + commands::WAITING_SIZE;
    }
    tree[at] = commands::JOB_LEAF;
    tree[at + commands::OPERANDS_AT] = action;
    at + commands::JOB_LEAF_SIZE
}

// What a list of `n` entries begins with: their number, and the condition of entry 0.
#[tactic(auto, unfolding(crate::specs::TreeBytes::first_bytes))]
pub fn put_first(tree: &mut [u8], paired: bool, n: u16, condition: Condition) -> usize
    requires { length (first_bytes paired n condition) ≤ length tree.old }
    ensures { Puts (first_bytes paired n condition) 0 tree.old tree.new result }
{
    let at = put_branch(tree, 0, commands::FALLBACK, n);
    put_condition(tree, at, paired, condition)
}

// An entry after the first.
#[tactic(auto, unfolding(crate::specs::TreeBytes::entry_bytes))]
pub fn put_later(
    tree: &mut [u8],
    at: usize,
    paired: bool,
    condition: Condition,
    mine: bool,
    action: u8,
) -> usize
    requires { at + length (entry_bytes paired condition mine action) ≤ length tree.old }
    ensures { Puts (entry_bytes paired condition mine action) at tree.old tree.new result }
{
    let condition_at = put_branch(tree, at, commands::SEQUENCE, 2);
    let leaf_at = put_condition(tree, condition_at, paired, condition);
    put_leaf(tree, leaf_at, mine, action)
}

pub fn put_end(tree: &mut [u8], at: usize) -> usize
    requires { at + length end_bytes ≤ length tree.old }
    ensures { Puts end_bytes at tree.old tree.new result }
{
    tree[at] = commands::END_OF_TREE;
    at + commands::END_OF_TREE_SIZE
}

// ---- the tree

// The entries after the first.
fn put_entries(
    paired: bool,
    n: usize,
    entries: Entries,
    owner: Owner,
    tree: &mut [u8],
    first: usize,
) -> usize
    requires { (1 ≤ n) × (n ≤ length entries.actions.now)
        × (first + length (later_entries (owned_by owner) paired (drop 1 (entries_in entries n))) ≤ length tree.old) }
    ensures { Puts (later_entries (owned_by owner.entry) paired (drop 1 (entries_in entries.entry n))) first tree.old tree.new result }
{
    let mut at = first;
    for i in 1..n {
        let condition = entries.condition(i);
        let action = entries.actions[i];
        let mine = owner.owns(action);
        at = put_later(tree, at, paired, condition, mine, action);
    }
    at
}

// Writes the fitter's tree of the first `n` entries, and nothing past it.
#[tactic(auto, using(crate::specs::TreeBytesLaws::tree_room))]
pub fn write_tree(paired: bool, n: usize, entries: Entries, owner: Owner, tree: &mut [u8])
    requires { (1 ≤ n) × (n ≤ max_children) × (n ≤ length entries.actions.now)
        × (length (own_tree (owned_by owner) paired (entries_in entries n)) ≤ length tree.old) }
    ensures { tree.new
        ≡ own_tree (owned_by owner.entry) paired (entries_in entries.entry n)
        ++ drop (length (own_tree (owned_by owner.entry) paired (entries_in entries.entry n))) tree.old }
{
    let goal = entries.condition(0);
    let first = put_first(tree, paired, n as u16, goal);
    let end = put_entries(paired, n, entries, owner, tree, first);
    put_end(tree, end);
}
