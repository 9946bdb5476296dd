// Behaviour trees in bytes: a node's command with its operands, with what stop 13 asks of a node by itself, and what a leaf answers (document 01,
// "Commands", "Ticking" and "Stops, in checking order"; document 02, W10 and W12).
#![tactic(auto)]

ghost use Rattle.std.specs.Prelude.{◌≡◌, ◌+◌, ◌<◌, ltb, length, get_or};
ghost use Rattle.commands.specs.Commands.{CONDITION, PAIR, JOB_LEAF};
ghost use Rattle.tree.specs.ReadTree.{kind_byte, node_at, node_read_of, in_range};
ghost use Rattle.tree.specs.Tick.{status_of, leaf_answer};

use conditions::{Condition, Evaluation};
use reading::Reading;
use refusal::{Reason, Refusal};

// A node with children.
#[derive(Clone, Copy)]
pub enum Kind {
    Fallback,
    Sequence,
}

// A node without children: a condition, document 01's JOB leaf with the job's number, which the field calls an action, or document 02's waiting leaf,
// where another fitter has a job to do.
#[derive(Clone, Copy)]
pub enum Leaf {
    Condition(Condition),
    Action(u8),
    Wait,
}

// What a node answers; Running names the action, Unsettled the unread facts. Waiting is document 02's Running that names no job.
#[derive(Clone, Copy)]
pub enum Status {
    Success,
    Failure,
    Running(u8),
    Unsettled(u64),
    Waiting,
}

const MAX_CHILDREN: usize = 4_096;

// FALLBACK and SEQUENCE have the same operand.
const BRANCH_SIZE: usize = commands::FALLBACK_SIZE;

// What stands at an offset.
#[derive(Clone, Copy)]
pub enum NodeRead {
    // A node with so many children, and the offset past its operand.
    Branch(Kind, usize, usize),
    // A leaf, and the offset past its operands.
    Leaf(Leaf, usize),
}

// Do the bytes end before the command at an offset does, which takes so many with its operands?
fn is_cut(tree: &[u8], at: usize, size: usize) -> bool
    requires { at < length tree.now }
    ensures { result ≡ ltb (length tree.now) (at + size) }
{
    tree.len() - at < size
}

fn branch_at(tree: &[u8], at: usize, kind: Kind) -> Result<NodeRead, Refusal>
    requires { (at < length tree.now) × (get_or tree.now at 0 ≡ kind_byte kind) }
    ensures { node_read_of result ≡ node_at tree.now at }
{
    if is_cut(tree, at, BRANCH_SIZE) {
        return Err(Reason::BadTree.at(at));
    }
    let count = numbers::read_u16(tree, at + commands::OPERANDS_AT) as usize;
    if count == 0 {
        return Err(Reason::BadTree.at(at));
    }
    if count > MAX_CHILDREN {
        return Err(Reason::BadTree.at(at));
    }
    Ok(NodeRead::Branch(kind, count, at + BRANCH_SIZE))
}

fn condition_at(tree: &[u8], at: usize) -> Result<NodeRead, Refusal>
    requires { (at < length tree.now) × (get_or tree.now at 0 ≡ CONDITION) }
    ensures { node_read_of result ≡ node_at tree.now at }
{
    if is_cut(tree, at, commands::CONDITION_SIZE) {
        return Err(Reason::BadTree.at(at));
    }
    let present = numbers::read_u64(tree, at + commands::OPERANDS_AT);
    let leaf = Leaf::Condition(Condition { present, absent: 0 });
    Ok(NodeRead::Leaf(leaf, at + commands::CONDITION_SIZE))
}

fn pair_at(tree: &[u8], at: usize) -> Result<NodeRead, Refusal>
    requires { (at < length tree.now) × (get_or tree.now at 0 ≡ PAIR) }
    ensures { node_read_of result ≡ node_at tree.now at }
{
    if is_cut(tree, at, commands::PAIR_SIZE) {
        return Err(Reason::BadTree.at(at));
    }
    let present = numbers::read_u64(tree, at + commands::OPERANDS_AT);
    let absent = numbers::read_u64(tree, at + commands::ABSENT_AT);
    let leaf = Leaf::Condition(Condition { present, absent });
    Ok(NodeRead::Leaf(leaf, at + commands::PAIR_SIZE))
}

fn action_at(tree: &[u8], at: usize) -> Result<NodeRead, Refusal>
    requires { (at < length tree.now) × (get_or tree.now at 0 ≡ JOB_LEAF) }
    ensures { node_read_of result ≡ node_at tree.now at }
{
    if is_cut(tree, at, commands::JOB_LEAF_SIZE) {
        return Err(Reason::BadTree.at(at));
    }
    let leaf = Leaf::Action(tree[at + commands::OPERANDS_AT]);
    Ok(NodeRead::Leaf(leaf, at + commands::JOB_LEAF_SIZE))
}

// The node at an offset: any bytes.
pub fn node_at(tree: &[u8], at: usize) -> Result<NodeRead, Refusal>
    ensures { node_read_of result ≡ node_at tree.now at }
{
    if at >= tree.len() {
        return Err(Reason::BadTree.at(tree.len()));
    }
    let byte = tree[at];
    if byte == commands::CONDITION {
        return condition_at(tree, at);
    }
    if byte == commands::JOB_LEAF {
        return action_at(tree, at);
    }
    if byte == commands::PAIR {
        return pair_at(tree, at);
    }
    if byte == commands::SEQUENCE {
        return branch_at(tree, at, Kind::Sequence);
    }
    if byte == commands::WAITING {
        return Ok(NodeRead::Leaf(Leaf::Wait, at + commands::WAITING_SIZE));
    }
    if byte == commands::FALLBACK {
        return branch_at(tree, at, Kind::Fallback);
    }
    Err(Reason::BadTree.at(at))
}

// Are a leaf's operands in range, for so many facts and jobs? Where they are not, stop 15 arises.
pub fn is_in_range(facts: u8, jobs: usize, leaf: Leaf) -> bool
    ensures { result ≡ in_range facts jobs leaf }
{
    match leaf {
        Leaf::Condition(c) => conditions::is_within(facts, c),
        Leaf::Action(job) => (job as usize) < jobs,
        Leaf::Wait => true,
    }
}

fn status_of(evaluation: Evaluation) -> Status
    ensures { result ≡ status_of evaluation }
{
    match evaluation {
        Evaluation::Met => Status::Success,
        Evaluation::Missed => Status::Failure,
        Evaluation::Open(unread) => Status::Unsettled(unread),
    }
}

// What a leaf answers on a reading.
pub fn answer(reading: Reading, leaf: Leaf) -> Status
    ensures { result ≡ leaf_answer reading leaf }
{
    match leaf {
        Leaf::Condition(c) => status_of(conditions::evaluate(reading, c)),
        Leaf::Action(job) => Status::Running(job),
        Leaf::Wait => Status::Waiting,
    }
}
