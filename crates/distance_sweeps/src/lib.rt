// The distances of all states, worked out forward in sweeps over a lent row that has a label for each state (document 02, W13). An action is
// document 01's job.
#![tactic(auto)]

ghost use Rattle.std.specs.Prelude.{◌<◌, length};
ghost use Rattle.conditions.specs.declared.Condition.{Condition};
ghost use Rattle.conditions.specs.Condition.{plain};
ghost use Rattle.expander.specs.Expands.{actions_in};
ghost use Rattle.distance_steps.specs.Steps.{ActionsFit};
ghost use Rattle.distance_sweeps.specs.Sweeps.{Level, Improves, SweptTo, Distances};

use conditions::Action;

// Looks at one state: where an action leads nearer than its label says, it gets one more than the least label that an action leads to. Says whether it
// did. After as many sweeps as `done`, labels up to one more are final.
fn improve(actions: &[Action], row: &mut [u16], s: usize, done: u16) -> bool
    requires { ActionsFit actions.now (length row.old) × (s < length row.old) × (done < length row.old) }
    ensures { (goal : Condition)
        → Level (actions_in actions.now) goal done row.old
        → Improves (actions_in actions.now) goal done s row.old row.new result }
{
    let label = row[s];
    if label <= done + 1 {
        return false;
    }
    let best = distance_steps::least_ahead(actions, row, s, done);
    if best < label - 1 {
        row[s] = best + 1;
        return true;
    }
    false
}

// Looks at every state, from the last down, since actions add facts more often than they delete some. Says whether a label changed.
fn sweep(actions: &[Action], row: &mut [u16], done: u16) -> bool
    requires { ActionsFit actions.now (length row.old) × (done < length row.old) }
    ensures { (goal : Condition)
        → Level (actions_in actions.now) goal done row.old
        → SweptTo (actions_in actions.now) goal done 0 row.old row.new result }
{
    let mut changed = false;
    for s in (0..row.len()).rev() {
        if improve(actions, row, s, done) {
            changed = true;
        }
    }
    changed
}

// Gives every state its distance: sweeps until one changes no label.
pub fn measure_states(actions: &[Action], goal: u64, row: &mut [u16])
    requires { ActionsFit actions.now (length row.old) × (0 < length row.old) }
    ensures { Distances (actions_in actions.now) (plain goal) row.old row.new }
{
    distance_steps::label_goal(goal, row);
    let mut done: u16 = 0;
    let mut changed = true;
    while changed {
        changed = sweep(actions, row, done);
        done += 1;
    }
}
