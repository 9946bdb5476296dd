// The tick of a tree's bytes on a reading: the walk over its nodes, then END, and the answer (document 01, "Ticking" and "Stops, in checking order";
// document 02, W12).
#![tactic(auto)]

ghost use Rattle.std.specs.Prelude.{◌≡◌};
ghost use Rattle.tree.specs.Tree.{Tree};
ghost use Rattle.tree.specs.ReadTree.{read_end, read_tree};
ghost use Rattle.tree.specs.Tick.{tick_tree};
ghost use Rattle.tick.specs.Answers.{answered_by, Answers, AnswersUnder};
ghost use Rattle.refusal.specs.Checked.{answer_of};

use commands::Found;
use reading::Reading;
use refusal::{Reason, Refusal};
use table::Header;
use tick_walk::Context;
use tree::Status;

// Whether a node goes on after a child: a row for fallbacks and one for sequences, by the child's Success, Failure, Running, Unsettled.
// Waiting is treated as Running.
pub const ROWS: [[bool; 4]; 2] = [[false, true, false, false], [true, false, false, false]];

const MAX_TREE_BYTES: usize = 65_535;

// END at an offset, and nothing after it.
#[tactic(auto, using(tree::specs::ReadTreeLaws::end_missing, tree::specs::ReadTreeLaws::end_unknown, tree::specs::ReadTreeLaws::end_cut, tree::specs::ReadTreeLaws::end_other, tree::specs::ReadTreeLaws::end_more, tree::specs::ReadTreeLaws::end_whole))]
fn read_end(tree: &[u8], status: Status, at: usize) -> Result<Status, Refusal>
    ensures { (t : Tree) (f : Tree → Status) → f t ≡ status → answer_of result ≡ answered_by f (read_end tree.now t at) }
{
    match commands::command_at(tree, at) {
        Found::Missing => Err(Reason::BadTree.at(tree.len())),
        Found::Unknown => Err(Reason::BadTree.at(at)),
        Found::Cut(_) => Err(Reason::BadTree.at(at)),
        Found::Whole(byte, next) => {
            if byte != commands::END_OF_TREE {
                return Err(Reason::BadTree.at(at));
            }
            if next != tree.len() {
                return Err(Reason::BadTree.at(next));
            }
            Ok(status)
        }
    }
}

fn tick_tree(tree: &[u8], context: Context) -> Result<Status, Refusal>
    ensures { answer_of result ≡ answered_by (λ t. (tick_tree context.reading t).answer) (read_tree tree.now context.facts context.jobs) }
{
    if tree.len() > MAX_TREE_BYTES {
        return Err(Reason::BadTree.at(0));
    }
    let root = tick_walk::tick_root(tree, context, ROWS)?;
    read_end(tree, root.status, root.next)
}

// Ticks a tree on a reading, under a table that was read: any bytes, any reading; a bad one is refused with the place.
pub fn tick_checked(
    header: Header,
    tree: &[u8],
    place: usize,
    reading: Reading,
) -> Result<Status, Refusal>
    ensures { AnswersUnder header tree.now place reading result }
{
    let facts = header.facts;
    let jobs = header.jobs;
    let reading = reading::check_reading(facts, place, reading)?;
    tick_tree(
        tree,
        Context {
            facts,
            jobs,
            reading,
        },
    )
}

// Ticks a tree on a reading: any bytes.
pub fn tick(table: &[u8], tree: &[u8], reading: Reading) -> Result<Status, Refusal>
    ensures { Answers table.now tree.now reading result }
{
    let header = table::read_table(table)?;
    tick_checked(header, tree, 0, reading)
}
