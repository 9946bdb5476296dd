// The distances of all states of a table (document 02, W13).
#![tactic(auto)]

ghost use Rattle.std.specs.Prelude.{◌≡◌, ◌≤◌, ◌^◌, length};
ghost use Rattle.refusal.specs.Checked.{accepted, answer_of};
ghost use Rattle.conditions.specs.Condition.{plain};
ghost use Rattle.table.specs.Table.{Table};
ghost use Rattle.table.specs.Read.{read_table, headed};
ghost use Rattle.builder.specs.Plan.{table_actions};
ghost use Rattle.distance_sweeps.specs.Sweeps.{Distances};
ghost use Rattle.distances.specs.Measure.{most_facts, checked_row, Measures};

use conditions::Action;
use refusal::{Reason, Refusal};
use table::Header;

// The most facts of a table whose states are counted.
const MOST_FACTS: u8 = 15;

// A state for each set of facts.
fn states_of(facts: u8) -> usize
    requires { facts ≤ most_facts }
    ensures { result ≡ 2 ^ facts }
{
    1 << facts
}

// How many states there are, where a row of this length has a number for each, and none more.
#[tactic(auto, using(crate::specs::MeasureLaws::length_other, crate::specs::MeasureLaws::length_fits, crate::specs::MeasureLaws::facts_many))]
fn check_row(facts: u8, length: usize) -> Result<usize, Refusal>
    ensures { answer_of result ≡ checked_row facts length }
{
    if facts > MOST_FACTS {
        return Err(Reason::TooManyFacts.at(0));
    }
    let states = states_of(facts);
    if length != states {
        return Err(Reason::BadRowLength.at(0));
    }
    Ok(states)
}

// Gives every state of a sound table its distance.
fn measure_table(table: &[u8], header: Header, row: &mut [u16])
    requires { (accepted header ≡ headed (read_table table.now)) × (header.facts ≤ most_facts) × (length row.old ≡ 2 ^ header.facts) }
    ensures { (t : Table) → accepted t ≡ read_table table.now → Distances (table_actions t) (plain t.goal) row.old row.new }
{
    let count = header.jobs;
    let mut jobs = [Action::default(); table::MAX_JOBS];
    job_rows::load(table, count, job::action_of, &mut jobs);
    distance_sweeps::measure_states(&jobs[..count], header.goal, row);
}

// Measures how far every state is from the goal: any table, any row. The answer is how many states there are. `Measures` says what stands in the row afterwards: for each state the fewest jobs of a
// sequence that reaches the goal, or `distance_steps::NO_DISTANCE`; and that this is what the plan for the whole shift says.
pub fn measure(table: &[u8], row: &mut [u16]) -> Result<usize, Refusal>
    ensures { Measures table.now row.old row.new (answer_of result) }
{
    let header = table::read_table(table)?;
    let states = check_row(header.facts, row.len())?;
    measure_table(table, header, row);
    Ok(states)
}
