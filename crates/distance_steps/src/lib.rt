// Where the actions lead from a state, by a row with a label for each state, and the first labels of such a row: what the sweeps for the distances of all
// states are made of (document 02, W13). A label is a distance as far as it was found yet. An action is document 01's job.
#![tactic(auto)]

ghost use Rattle.std.specs.Prelude.{◌≡◌, ◌≤◌, ◌<◌, length};
ghost use Rattle.base.specs.Lists.{prefix};
ghost use Rattle.conditions.specs.declared.Condition.{Condition};
ghost use Rattle.conditions.specs.Condition.{plain};
ghost use Rattle.expander.specs.Expands.{actions_in};
ghost use Rattle.distance_steps.specs.Steps.{Stays, ActionsFit, label_after, first_label, LeastAhead, NoneBelow};

use conditions::{Action, Condition};
use reading::Reading;

// Stands for the distance of a state from which no sequence reaches the goal, or none was found yet.
pub const NO_DISTANCE: u16 = 65_535;

// The goal's states have the label 0, and no other has one yet.
fn first_label(goal: u64, s: usize) -> u16
    ensures { result ≡ first_label (plain goal) s }
{
    let condition = Condition {
        present: goal,
        absent: 0,
    };
    if conditions::is_satisfied(condition, s as u64) {
        return 0;
    }
    NO_DISTANCE
}

pub fn label_goal(goal: u64, row: &mut [u16])
    ensures { row.new ≡ prefix (first_label (plain goal)) (length row.old) }
{
    for (s, label) in row.iter_mut().enumerate() {
        *label = first_label(goal, s);
    }
}

// The label of the state that an action leaves, or `NO_DISTANCE` where it is not applicable.
#[tactic(auto, using(crate::specs::AheadLaws::leaves_inside, crate::specs::AheadLaws::label_applicable, crate::specs::AheadLaws::label_inapplicable))]
fn label_after(action: Action, row: &[u16], s: usize) -> u16
    requires { Stays (length row.now) action × (length row.now ≤ 32768) × (s < length row.now) }
    ensures { result ≡ label_after action row.now s }
{
    let here = Reading {
        held: s as u64,
        unread: 0,
    };
    if conditions::is_applicable(action, here) {
        let after = conditions::finish(action, here);
        let t = after.held as usize;
        return row[t];
    }
    NO_DISTANCE
}

// The least label that an action leads to. The search ends at `floor`, where no action leads to less.
pub fn least_ahead(actions: &[Action], row: &[u16], s: usize, floor: u16) -> u16
    requires { ActionsFit actions.now (length row.now) × (s < length row.now) }
    ensures { (goal : Condition)
        → NoneBelow (actions_in actions.now) goal row.now s floor
        → LeastAhead (actions_in actions.now) goal row.now s result }
{
    let mut best = NO_DISTANCE;
    for &action in actions {
        let label = label_after(action, row, s);
        if label < best {
            if label <= floor {
                return floor;
            }
            best = label;
        }
    }
    best
}
