// From the bytes of a tree back to the list that they were written from (document 02, W7). Only one plan can have written them: the one for the last
// condition that the tree shows, as the start. It is planned into tables that no caller sees, the bytes of its tree are compared, and only then is anything
// written that is lent.
#![tactic(auto)]

ghost use Rattle.std.specs.Prelude.{◌≡◌, false, []};
ghost use Rattle.refusal.specs.Checked.{accepted, and_then, answer_of};
ghost use Rattle.table.specs.Table.{Table};
ghost use Rattle.table.specs.Read.{headed};
ghost use Rattle.expander.specs.Expands.{columns, room};
ghost use Rattle.tree_shows.specs.Shown.{sound_tree};
ghost use Rattle.plan_recovery.specs.Recovery.{list_of, fitting, WritesBack};
ghost use Rattle.plan_recovery.specs.Promise.{Recovers};

use expander::Until;
use refusal::{Reason, Refusal};
use table::Header;

// The list of a sound tree. Its plan needs no more room than the entries that the tree shows, so a tree of another origin costs no more than that.
fn recover_under(
    table: &[u8],
    header: Header,
    tree: &[u8],
    conditions: &mut [u64],
    actions: &mut [u8],
    parents: &mut [u16],
    depths: &mut [u16],
) -> Result<usize, Refusal>
    requires { accepted header ≡ headed (sound_tree table.now tree.now) }
    ensures { (t : Table) → accepted t ≡ sound_tree table.now tree.now → WritesBack
        (and_then (list_of t table.now tree.now) λ l. fitting
        (room (columns conditions.old [] actions.old parents.old depths.old) false) l)
        (columns conditions.old [] actions.old parents.old depths.old)
        (columns conditions.new [] actions.new parents.new depths.new) (answer_of result) }
{
    let Some(n) = tree_shows::entries_shown(header.paired, tree.len()) else {
        return Err(Reason::OtherOrigin.at(0));
    };
    let start = tree_shows::last_mask(tree, n);
    let mut planned_conditions = [0u64; expander::MAX_ENTRIES];
    // The plan has no more room than this.
    let planned_conditions = &mut planned_conditions[..n];
    // There are no second masks.
    let mut absences = [0u64; 1];
    let mut planned_actions = [0u8; expander::MAX_ENTRIES];
    let mut planned_parents = [0u16; expander::MAX_ENTRIES];
    let mut planned_depths = [0u16; expander::MAX_ENTRIES];
    let mut bytes = [0u8; tree_shows::MAX_SIZE];
    let built = builder::build(
        table,
        header,
        Until::Covers(start),
        planned_conditions,
        &mut absences,
        &mut planned_actions,
        &mut planned_parents,
        &mut planned_depths,
        &mut bytes,
    );
    let written = recovery_parts::bytes_built(built);
    let planned = tree_shows::is_same(&bytes[..written], tree);
    let room = expander::capacity_of(
        false,
        conditions.len(),
        0,
        actions.len(),
        parents.len(),
        depths.len(),
    );
    let listed = recovery_parts::judge(planned, room < n, n);
    recovery_parts::copy_list(
        recovery_parts::entries_told(listed),
        planned_conditions,
        &planned_actions,
        &planned_parents,
        &planned_depths,
        conditions,
        actions,
        parents,
        depths,
    );
    listed
}

// Rebuilds the list that a tree was written from: any table, any tree, any lent list tables. `Recovers` says what stands in every lent slice afterwards, and
// that a list is recovered exactly from the trees that a plan of the table writes for some start.
pub fn recover(
    table: &[u8],
    tree: &[u8],
    conditions: &mut [u64],
    actions: &mut [u8],
    parents: &mut [u16],
    depths: &mut [u16],
) -> Result<usize, Refusal>
    ensures { Recovers table.now tree.now
        (columns conditions.old [] actions.old parents.old depths.old)
        (columns conditions.new [] actions.new parents.new depths.new) result }
{
    let header = tree_shows::sound_tree(table, tree)?;
    recover_under(table, header, tree, conditions, actions, parents, depths)
}
