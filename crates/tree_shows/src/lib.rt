// What the bytes of a tree show of the list that they were written from (document 02, W7).
#![tactic(auto)]

ghost use Rattle.std.specs.Prelude.{◌≡◌, false, ◌≤◌, length};
ghost use Rattle.table.specs.Read.{headed};
ghost use Rattle.flat.specs.TreeBytes.{tree_size};
ghost use Rattle.tree_shows.specs.Shown.{sound_tree, Shows, last_mask, same_bytes};
ghost use Rattle.refusal.specs.Checked.{answer_of};

use reading::Reading;
use refusal::Refusal;
use table::Header;

// The bytes of a list's tree: those of entry 0, with its FALLBACK and END, and those of each later entry.
const FIRST_SIZE: usize = commands::FALLBACK_SIZE
    + commands::CONDITION_SIZE
    + commands::END_OF_TREE_SIZE;

const LATER_SIZE: usize = commands::SEQUENCE_SIZE
    + commands::CONDITION_SIZE
    + commands::JOB_LEAF_SIZE;

// Of the longest list.
pub const MAX_SIZE: usize = FIRST_SIZE + LATER_SIZE * (expander::MAX_ENTRIES - 1);

// The table, and the tree under it. Any tick tells whether a tree is sound.
pub fn sound_tree(table: &[u8], tree: &[u8]) -> Result<Header, Refusal>
    ensures { answer_of result ≡ headed (sound_tree table.now tree.now) }
{
    let header = table::read_table(table)?;
    let nothing = Reading { held: 0, unread: 0 };
    tick::tick_checked(header, tree, 0, nothing)?;
    Ok(header)
}

// How many entries a list has whose tree takes so many bytes, if there is such a list and the table has no 0x21: the trees of a table with one are not
// taken.
pub fn entries_shown(paired: bool, size: usize) -> Option<usize>
    ensures { Shows paired size result }
{
    if paired || size < FIRST_SIZE || MAX_SIZE < size {
        return None;
    }
    let later = size - FIRST_SIZE;
    if later % LATER_SIZE != 0 {
        return None;
    }
    Some(later / LATER_SIZE + 1)
}

// The mask of the last condition in the tree of n entries.
#[tactic(auto, using(crate::specs::PartLaws::mask_there))]
pub fn last_mask(tree: &[u8], n: usize) -> u64
    requires { (1 ≤ n) × (tree_size false n ≡ length tree.now) }
    ensures { result ≡ last_mask tree.now }
{
    let mut after = commands::END_OF_TREE_SIZE;
    if n != 1 {
        after += commands::JOB_LEAF_SIZE;
    }
    numbers::read_u64(tree, tree.len() - (after + commands::MASK_WIDTH))
}

// Are these the same bytes?
pub fn is_same(a: &[u8], b: &[u8]) -> bool
    ensures { result ≡ same_bytes a.now b.now }
{
    a == b
}
