// The plan for two fitters at one vehicle: one list for the team, and a tree for each (document 02, W12).
#![tactic(auto)]

ghost use Rattle.std.specs.Prelude.{◌≡◌, List, ℕ, ◌≤◌, length};
ghost use Rattle.table.specs.Read.{headed};
ghost use Rattle.tree.specs.ReadTree.{max_children};
ghost use Rattle.expander.specs.Expands.{columns};
ghost use Rattle.flat.specs.TreeBytes.{entries_in, tree_entries};
ghost use Rattle.builder.specs.Finish.{with_trees, WritesTrees};
ghost use Rattle.team_planner.specs.Team.{of_each, fitter_tree, two_trees, team_for, BothAtFront};
ghost use Rattle.team_planner.specs.Promise.{PlansTeam};
ghost use Rattle.refusal.specs.Checked.{answer_of};

use expander::Until;
use flat::Entries;
use licences::{Fitter, Owner};
use reading::Reading;
use refusal::{Reason, Refusal};
use table::Header;

// The entries of a list and the bytes of both fitters' trees, and whether all hold second masks.
#[derive(Clone, Copy)]
pub struct TeamSize {
    pub entries: usize,
    pub first: usize,
    pub second: usize,
    pub paired: bool,
}

// The table, the licences of its jobs, and the start under it.
fn team_for(table: &[u8], licences: &[u8], start: Reading) -> Result<Header, Refusal>
    ensures { answer_of result ≡ headed (team_for table.now licences.now start) }
{
    let header = table::read_table(table)?;
    licences::check_licences(header.jobs, licences)?;
    reading::check_start(header.facts, start)?;
    Ok(header)
}

// How many bytes a fitter's tree of the list's first n entries takes.
fn size_for(paired: bool, n: usize, actions: &[u8], owner: Owner) -> usize
    requires { (1 ≤ n) × (n ≤ max_children) × (n ≤ length actions.now) }
    ensures { (conditions absences : List ℕ)
        → result ≡ length (fitter_tree owner.entry.licences.now paired (tree_entries conditions absences actions.now n) owner.entry.fitter) }
{
    let leaves = flat::leaves_size(n, actions, owner);
    flat::tree_size(paired, n, leaves)
}

// Writes both trees of the list's first n entries, where both have room.
fn fit_trees(
    paired: bool,
    n: usize,
    entries: Entries,
    licences: &[u8],
    first: &mut [u8],
    second: &mut [u8],
) -> Result<TeamSize, Refusal>
    requires { (1 ≤ n) × (n ≤ max_children) × (n ≤ length entries.actions.now) }
    ensures { WritesTrees (BothAtFront (of_each first.old second.old) (of_each first.new second.new))
        (with_trees (two_trees licences.now paired (λ fitter. length (of_each first.old second.old fitter))) paired
        (entries_in entries.entry n)) (answer_of result) }
{
    let one = Owner {
        licences,
        fitter: Fitter::First,
    };
    let other = Owner {
        licences,
        fitter: Fitter::Second,
    };
    let first_bytes = size_for(paired, n, entries.actions, one);
    let second_bytes = size_for(paired, n, entries.actions, other);
    if first.len() < first_bytes {
        return Err(Reason::TreeTooShort.at(n));
    }
    if second.len() < second_bytes {
        return Err(Reason::TreeTooShort.at(n));
    }
    flat::write_tree(paired, n, entries, one, first);
    flat::write_tree(paired, n, entries, other, second);
    Ok(TeamSize {
        entries: n,
        first: first_bytes,
        second: second_bytes,
        paired,
    })
}

// Plans for two fitters: any table, any licences, any start, any lent tables. `PlansTeam` says what stands in every lent slice afterwards, and what holds
// of the plan: from every covered state the two trees name one job, to the fitter whose it is, and the other waits; done in turn, these jobs lead to
// the goal, and no sequence has fewer.
pub fn plan_team(
    table: &[u8],
    licences: &[u8],
    start: Reading,
    conditions: &mut [u64],
    absences: &mut [u64],
    actions: &mut [u8],
    parents: &mut [u16],
    depths: &mut [u16],
    first: &mut [u8],
    second: &mut [u8],
) -> Result<TeamSize, Refusal>
    ensures { PlansTeam table.now licences.now start
        (columns conditions.old absences.old actions.old parents.old depths.old)
        (columns conditions.new absences.new actions.new parents.new depths.new)
        (of_each first.old second.old) (of_each first.new second.new) result }
{
    let header = team_for(table, licences, start)?;
    let n = builder::list_goal(
        table,
        header,
        Until::Covers(start.held),
        conditions,
        absences,
        actions,
        parents,
        depths,
    )?;
    let entries = Entries {
        conditions,
        absences,
        actions,
    };
    fit_trees(header.paired, n, entries, licences, first, second)
}
