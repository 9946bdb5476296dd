// The list of a sound table's goal and its tree, put into lent tables: what every plan is made of (document 01, "Expansion", stops 10 to 12;
// document 02, W10).
#![tactic(auto)]

ghost use Rattle.std.specs.Prelude.{◌≡◌, ◌≤◌, length};
ghost use Rattle.refusal.specs.Checked.{accepted, answer_of};
ghost use Rattle.table.specs.Table.{Table};
ghost use Rattle.table.specs.Read.{read_table, headed};
ghost use Rattle.tree.specs.ReadTree.{max_children};
ghost use Rattle.conditions.specs.Condition.{plain};
ghost use Rattle.expander.specs.Expands.{columns, room, Unlent, expanded_of, Expands};
ghost use Rattle.flat.specs.TreeBytes.{entries_in, tree_entries};
ghost use Rattle.builder.specs.Plan.{table_actions, pairs, with_tree, table_plan, size_of, WritesList, WritesTree, WritesPlan};

use conditions::Action;
use expander::{Expanded, Until};
use flat::Entries;
use licences::{Fitter, Owner};
use refusal::{Reason, Refusal};
use table::Header;

// The entries of a list and the bytes of its tree, and whether both hold second masks.
#[derive(Clone, Copy)]
pub struct Size {
    pub entries: usize,
    pub bytes: usize,
    pub paired: bool,
}

// Lists the conditions from which the jobs of a sound table lead to its goal, up to the first that ends the list. No second masks are lent where the
// table has no 0x21.
fn expand_goal(
    table: &[u8],
    header: Header,
    until: Until,
    conditions: &mut [u64],
    absences: &mut [u64],
    actions: &mut [u8],
    parents: &mut [u16],
    depths: &mut [u16],
) -> Expanded
    requires { (accepted header ≡ headed (read_table table.now)) × Unlent header.paired absences.old }
    ensures { (t : Table) → accepted t ≡ read_table table.now → Expands (pairs t) (table_actions t) (plain t.goal) until
        (columns conditions.old absences.old actions.old parents.old depths.old)
        (columns conditions.new absences.new actions.new parents.new depths.new) result }
{
    let count = header.jobs;
    let mut jobs = [Action::default(); table::MAX_JOBS];
    job_rows::load(table, count, job::action_of, &mut jobs);
    expander::expand(
        header.paired,
        &jobs[..count],
        header.goal,
        until,
        conditions,
        absences,
        actions,
        parents,
        depths,
    )
}

// The number of entries of a list that ended as was asked. Without a start there is no way to miss: every entry expanded is what was asked for.
fn as_listed(until: Until, expanded: Expanded) -> Result<usize, Refusal>
    ensures { answer_of result ≡ expanded_of until expanded }
{
    match expanded {
        Expanded::Full(n) => Err(Reason::ListFull.at(n)),
        Expanded::Covered(n) => Ok(n),
        Expanded::Exhausted(n) => match until {
            Until::Covers(_) => Err(Reason::NoWay.at(n)),
            Until::Never => Ok(n),
        },
    }
}

// The list of a sound table's goal, up to what ends it, in list tables of which the second masks are of no use to a table without a 0x21: then they are
// neither counted nor written, however many are lent.
pub fn list_goal(
    table: &[u8],
    header: Header,
    until: Until,
    conditions: &mut [u64],
    absences: &mut [u64],
    actions: &mut [u8],
    parents: &mut [u16],
    depths: &mut [u16],
) -> Result<usize, Refusal>
    requires { accepted header ≡ headed (read_table table.now) }
    ensures { (t : Table) → accepted t ≡ read_table table.now → WritesList until t
        (columns conditions.old absences.old actions.old parents.old depths.old)
        (columns conditions.new absences.new actions.new parents.new depths.new) (answer_of result) }
{
    let used = expander::if_paired(header.paired, absences.len());
    let expanded = expand_goal(
        table,
        header,
        until,
        conditions,
        &mut absences[..used],
        actions,
        parents,
        depths,
    );
    as_listed(until, expanded)
}

// Writes the tree of the list's first n entries, where it has room. There are no licences, so that every job is one fitter's.
fn fit_tree(paired: bool, n: usize, entries: Entries, tree: &mut [u8]) -> Result<Size, Refusal>
    requires { (1 ≤ n) × (n ≤ max_children) × (n ≤ length entries.conditions.now) × (n ≤ length entries.actions.now) }
    ensures { WritesTree
        (with_tree paired (length tree.old) (size_of paired (entries_in entries.entry n)) (entries_in entries.entry n))
        tree.old tree.new (answer_of result) }
{
    let leaves = commands::JOB_LEAF_SIZE * (n - 1);
    let bytes = flat::tree_size(paired, n, leaves);
    if tree.len() < bytes {
        return Err(Reason::TreeTooShort.at(n));
    }
    let everyone = Owner {
        licences: &[],
        fitter: Fitter::First,
    };
    flat::write_tree(paired, n, entries, everyone, tree);
    Ok(Size {
        entries: n,
        bytes,
        paired,
    })
}

// The list and its tree.
pub fn build(
    table: &[u8],
    header: Header,
    until: Until,
    conditions: &mut [u64],
    absences: &mut [u64],
    actions: &mut [u8],
    parents: &mut [u16],
    depths: &mut [u16],
    tree: &mut [u8],
) -> Result<Size, Refusal>
    requires { accepted header ≡ headed (read_table table.now) }
    ensures { (t : Table) → accepted t ≡ read_table table.now → WritesPlan
        (table_plan until t
        (room (columns conditions.old absences.old actions.old parents.old depths.old))
        (length tree.old) (size_of (pairs t)))
        (columns conditions.old absences.old actions.old parents.old depths.old)
        (columns conditions.new absences.new actions.new parents.new depths.new)
        tree.old tree.new (answer_of result) }
{
    let paired = header.paired;
    let n = list_goal(
        table, header, until, conditions, absences, actions, parents, depths,
    )?;
    let entries = Entries {
        conditions,
        absences,
        actions,
    };
    fit_tree(paired, n, entries, tree)
}
