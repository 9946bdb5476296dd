// The expansion of a goal into the list of conditions from which actions lead to it (document 01, "Expansion"; document 02, W10), over a row of
// actions and five lent list tables. An action is document 01's job.
#![tactic(auto)]

ghost use Rattle.std.specs.Prelude.{◌≡◌, Bool};
ghost use Rattle.conditions.specs.Condition.{plain};
ghost use Rattle.expander.specs.Expands.{action_for, actions_for, actions_in, Asks, columns, capacity_of, ended_by, if_paired, Unlent, Unasked, Expands};

use conditions::{Action, Condition};

// What ends the list, besides its capacity.
#[derive(Clone, Copy)]
pub enum Until {
    // A condition that this start meets.
    Covers(u64),
    // Nothing: every entry is expanded (document 02, W2).
    Never,
}

// How the list ended, with the number of entries stored. `expanded_of` gives the papers' numbers.
#[derive(Clone, Copy)]
pub enum Expanded {
    // Every entry is expanded, and none ended the list.
    Exhausted(usize),
    // The last entry ended it: the start meets it.
    Covered(usize),
    // One more entry would exceed the capacity.
    Full(usize),
}

// Stored as the action of entry 0, which has none.
pub const NO_ACTION: u8 = 255;

pub const MAX_ENTRIES: usize = 4_096;

// Of a paired list: it holds second masks.
pub const MAX_PAIRS: usize = 2_978;

const MAX_ACTIONS: usize = 128;

// How many entries fit the list tables, by their lengths. The second masks of a list that is not paired take no room.
#[tactic(auto, unfolding(crate::specs::Expands::capacity_of))]
pub fn capacity_of(
    paired: bool,
    conditions: usize,
    absences: usize,
    actions: usize,
    parents: usize,
    depths: usize,
) -> usize
    ensures { result ≡ capacity_of paired conditions absences actions parents depths }
{
    let shortest = conditions.min(actions).min(parents.min(depths));
    if paired {
        return shortest.min(absences).min(MAX_PAIRS);
    }
    shortest.min(MAX_ENTRIES)
}

// How many of n second masks count: all for a paired list, and none for one that has no second masks.
pub fn if_paired(paired: bool, n: usize) -> usize
    ensures { result ≡ if_paired paired n }
{
    if paired { n } else { 0 }
}

// Of the facts that an action needs absent all count, or none where the list is not paired.
#[tactic(auto, using(crate::specs::ExpandsLaws::every_fact))]
fn asked_absent(paired: bool) -> u64
    ensures { Asks paired result }
{
    if paired { u64::MAX } else { 0 }
}

// The job as the list takes it.
fn action_for(asked: u64, job: Action) -> Action
    ensures { (paired : Bool) → Asks paired asked → result ≡ action_for paired job }
{
    Action {
        absent: job.absent & asked,
        ..job
    }
}

// Does a listed condition end the list?
fn ends_list(until: Until, condition: Condition) -> bool
    ensures { result ≡ ended_by until condition }
{
    match until {
        Until::Covers(start) => conditions::is_satisfied(condition, start),
        Until::Never => false,
    }
}

// Lists the conditions from which the jobs lead to the goal, nearest first, up to the first that ends the list. Entry i stands at i of `conditions`,
// `absences`, `actions`, `parents` and `depths`, where `actions` has the number of a job. For a list that is not paired no second masks are lent, and
// the facts that its jobs need absent do not count: where none of them needs one, the list is that of the jobs as they are.
#[tactic(auto, using(crate::specs::ExpandsLaws::capacity_conditions, crate::specs::ExpandsLaws::capacity_actions, crate::specs::ExpandsLaws::capacity_parents, crate::specs::ExpandsLaws::capacity_depths))]
pub fn expand(
    paired: bool,
    jobs: &[Action],
    goal: u64,
    until: Until,
    conditions: &mut [u64],
    absences: &mut [u64],
    actions: &mut [u8],
    parents: &mut [u16],
    depths: &mut [u16],
) -> Expanded
    requires { Unlent paired absences.old }
    ensures taken { Expands paired (actions_for paired jobs.now) (plain goal) until
        (columns conditions.old absences.old actions.old parents.old depths.old)
        (columns conditions.new absences.new actions.new parents.new depths.new) result }
    ensures as_they_are { Unasked paired (actions_in jobs.now) → Expands paired (actions_in jobs.now) (plain goal) until
        (columns conditions.old absences.old actions.old parents.old depths.old)
        (columns conditions.new absences.new actions.new parents.new depths.new) result }
{
    let capacity = capacity_of(
        paired,
        conditions.len(),
        absences.len(),
        actions.len(),
        parents.len(),
        depths.len(),
    );
    if capacity == 0 {
        return Expanded::Full(0);
    }
    let root = Condition {
        present: goal,
        absent: 0,
    };
    conditions[0] = goal;
    conditions::set_mask(absences, 0, 0);
    actions[0] = NO_ACTION;
    parents[0] = 0;
    depths[0] = 0;
    if ends_list(until, root) {
        return Expanded::Covered(1);
    }
    let count = jobs.len().min(MAX_ACTIONS);
    let asked = asked_absent(paired);
    // The list has n entries, and those below e are expanded.
    let mut n: usize = 1;
    let mut e: usize = 0;
    'entries: loop {
        if e == n {
            break Expanded::Exhausted(n);
        }
        let condition = conditions::condition_at(conditions, absences, e);
        let depth = depths[e];
        'actions: for a in 0..count {
            let action = action_for(asked, jobs[a]);
            if conditions::is_relevant(action, condition) {
                let new = conditions::regress(action, condition);
                // A condition that wants a fact both ways is dropped.
                if conditions::is_consistent(new) {
                    if conditions::newest_weaker(conditions, absences, n, new).is_none() {
                        if n == capacity {
                            break 'entries Expanded::Full(n);
                        }
                        conditions[n] = new.present;
                        conditions::set_mask(absences, n, new.absent);
                        actions[n] = a as u8;
                        parents[n] = e as u16;
                        depths[n] = depth + 1;
                        n += 1;
                        if ends_list(until, new) {
                            break 'entries Expanded::Covered(n);
                        }
                    }
                }
            }
        }
        e += 1;
    }
}

#[cfg(test)]
mod tests {
    use super::{Action, Expanded, Until, expand};

    // Document 01: "0 to 128 JOBs numbered from 0". The goal is fact 0, and one job adds it, which needs fact 1 absent.
    #[test]
    fn no_more_than_128_jobs_count(rt: HostRuntime) {
        let idle = Action {
            needs: 0,
            absent: 0,
            adds: 0,
            deletes: 0,
        };
        let adds_goal = Action {
            absent: 2,
            adds: 1,
            ..idle
        };
        // Where that job stands, and the conditions that are listed: the goal, and what the job needs, which is nothing.
        for (at, list, entries) in [(127, [1, 0, 9, 9], 2), (128, [1, 9, 9, 9], 1)] {
            let mut jobs = [idle; 129];
            jobs[at] = adds_goal;
            let mut conditions = [9; 4];
            let mut actions = [9; 4];
            let mut parents = [9; 4];
            let mut depths = [9; 4];
            let listed = expand(
                false,
                &jobs,
                1,
                Until::Never,
                &mut conditions,
                &mut [],
                &mut actions,
                &mut parents,
                &mut depths,
            );
            let stored = match listed {
                Expanded::Exhausted(n) => n,
                Expanded::Covered(_) => 0,
                Expanded::Full(_) => 0,
            };
            assert_eq!(rt; stored, entries, "job {at}");
            assert_eq!(rt; conditions, list, "job {at}");
        }
    }
}
