// The plan for the whole shift, which takes no start (document 02, W2).
#![tactic(auto)]

ghost use Rattle.expander.specs.Expands.{columns};
ghost use Rattle.shift_planner.specs.Shift.{PlansShift};

use builder::Size;
use expander::Until;
use refusal::Refusal;

// Plans for the whole shift: any table, any lent tables. `PlansShift` says what stands in every lent slice afterwards, and what
// holds of the plan: its conditions cover exactly the states from which some sequence of jobs leads to the goal, and from each of
// them the ticks of its tree take the fewest jobs.
pub fn plan_shift(
    table: &[u8],
    conditions: &mut [u64],
    absences: &mut [u64],
    actions: &mut [u8],
    parents: &mut [u16],
    depths: &mut [u16],
    tree: &mut [u8],
) -> Result<Size, Refusal>
    ensures { PlansShift table.now
        (columns conditions.old absences.old actions.old parents.old depths.old)
        (columns conditions.new absences.new actions.new parents.new depths.new)
        tree.old tree.new result }
{
    let header = table::read_table(table)?;
    builder::build(
        table,
        header,
        Until::Never,
        conditions,
        absences,
        actions,
        parents,
        depths,
        tree,
    )
}
