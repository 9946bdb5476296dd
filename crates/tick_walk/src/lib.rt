// One walk over the bytes of a tree checks every node and, while the answer is open, ticks it (document 01, "Ticking", and 13 to 15 of "Stops, in
// checking order"; document 02, W12).
#![tactic(auto)]

ghost use Rattle.std.specs.Prelude.{◌≡◌, true, ◌<◌};
ghost use Rattle.refusal.specs.Checked.{accepted};
ghost use Rattle.tree.specs.ReadTree.{branch, node_at};
ghost use Rattle.tree.specs.Tick.{kind_index, status_index};
ghost use Rattle.tick_walk.specs.Walk.{answer_if, walk_of, walk_leaf, walk_node, walk_children};

use reading::Reading;
use refusal::{Reason, Refusal};
use tree::{Kind, Leaf, NodeRead, Status};

const MAX_DEPTH: usize = 16;

fn kind_index(kind: Kind) -> usize
    ensures { (result ≡ kind_index kind) × (result < 2) }
{
    match kind {
        Kind::Fallback => 0,
        Kind::Sequence => 1,
    }
}

fn status_index(status: Status) -> usize
    ensures { (result ≡ status_index status) × (result < 4) }
{
    match status {
        Status::Success => 0,
        Status::Failure => 1,
        Status::Running(_) => 2,
        Status::Unsettled(_) => 3,
        Status::Waiting => 2,
    }
}

// What a tree is checked and ticked against.
#[derive(Clone, Copy)]
pub struct Context {
    pub facts: u8,
    pub jobs: usize,
    pub reading: Reading,
}

// The answer, and the offset past what was walked over.
#[derive(Clone, Copy)]
pub struct Walked {
    pub status: Status,
    pub next: usize,
}

// A part that is only checked counts as passed with Success.
fn pass(live: bool, answer: Status, next: usize) -> Walked
    ensures { result ≡ record { status = answer_if live answer; next = next } }
{
    let status = if live { answer } else { Status::Success };
    Walked { status, next }
}

// A leaf that was read at an offset, and ends before `next`; `live` says whether the tick still asks for its answer. Its kind is looked at once, before
// the depth: it is quicker so, and the first stop is the same.
fn tick_leaf(
    leaf: Leaf,
    at: usize,
    next: usize,
    depth: usize,
    live: bool,
    context: Context,
) -> Result<Walked, Refusal>
    ensures { walk_of result ≡ walk_leaf context at next depth live leaf }
{
    let fits = tree::is_in_range(context.facts, context.jobs, leaf);
    let answer = tree::answer(context.reading, leaf);
    if depth > MAX_DEPTH {
        return Err(Reason::TreeTooDeep.at(at));
    }
    if !fits {
        return Err(Reason::TreeOperandOutOfRange.at(at));
    }
    Ok(pass(live, answer, next))
}

// A node with children that was read at an offset; its first child stands at `next`.
#[cycle(tick_node_tick_row)]
fn tick_node(
    tree: &[u8],
    at: usize,
    next: usize,
    kind: Kind,
    count: usize,
    depth: usize,
    live: bool,
    context: Context,
    rows: [[bool; 4]; 2],
) -> Result<Walked, Refusal>
    requires { accepted (record { value = branch kind count; next = next }) ≡ node_at tree.now at }
    ensures { walk_of result ≡ walk_node rows tree.now context at depth live }
{
    if depth > MAX_DEPTH {
        return Err(Reason::TreeTooDeep.at(at));
    }
    tick_row(tree, next, count, kind, depth + 1, live, context, rows)
}

// As many children from an offset on. A row that is decided is walked to its end all the same. A leaf is ticked without a call of
// `tick_node`: most children are leaves.
#[cycle(tick_node_tick_row)]
fn tick_row(
    tree: &[u8],
    first: usize,
    count: usize,
    kind: Kind,
    depth: usize,
    live: bool,
    context: Context,
    rows: [[bool; 4]; 2],
) -> Result<Walked, Refusal>
    ensures { walk_of result ≡ walk_children rows tree.now context kind depth count live Status.Success first }
{
    let row = kind_index(kind);
    let mut at = first;
    let mut going = live;
    let mut answer = Status::Success;
    for _ in 0..count {
        let walked = match tree::node_at(tree, at)? {
            NodeRead::Leaf(leaf, next) => tick_leaf(leaf, at, next, depth, going, context),
            NodeRead::Branch(k, n, next) => tick_node(
                tree, at, next, k, n, depth, going, context, rows,
            ),
        };
        let child = walked?;
        if going {
            let status = status_index(child.status);
            answer = child.status;
            going = rows[row][status];
        }
        at = child.next;
    }
    Ok(Walked {
        status: answer,
        next: at,
    })
}

// The root, at depth 1: a row of one child answers as that child does, in a node of either kind.
pub fn tick_root(tree: &[u8], context: Context, rows: [[bool; 4]; 2]) -> Result<Walked, Refusal>
    ensures { walk_of result ≡ walk_node rows tree.now context 0 1 true }
{
    tick_row(tree, 0, 1, Kind::Sequence, 1, true, context, rows)
}
