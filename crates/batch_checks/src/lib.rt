// What is judged before a row of vehicles is ticked on a list: each reading, the list's length, and each of its entries (document 02, W4).
#![tactic(auto)]

ghost use Rattle.std.specs.Prelude.{◌≡◌, ◌≤◌, length};
ghost use Rattle.refusal.specs.Checked.{checked_each, answer_as};
ghost use Rattle.planning.specs.Columns.{max_entries};
ghost use Rattle.flat.specs.TreeBytes.{entries_in};
ghost use Rattle.batch_walk.specs.Batch.{readings_in};
ghost use Rattle.batch_checks.specs.Checks.{checked_readings, entry_fits, checked_entry, checked_list};

use batch_walk::Readings;
use conditions::Condition;
use flat::Entries;
use refusal::{Reason, Refusal};
use table::Header;
use tree::Leaf;

// The readings of so many vehicles.
#[tactic(auto, using(crate::specs::CheckLaws::readings_passed, crate::specs::CheckLaws::reading_refused, crate::specs::CheckLaws::next_reading))]
pub fn check_readings(facts: u8, vehicles: usize, readings: Readings) -> Result<(), Refusal>
    requires { (vehicles ≤ length readings.held.now) × (vehicles ≤ length readings.unread.now) }
    ensures { answer_as (readings_in readings.entry vehicles) result ≡ checked_readings facts (readings_in readings.entry vehicles) }
{
    for v in 0..vehicles {
        reading::check_reading(facts, v, readings.at(v))?;
    }
    Ok(())
}

// Are the operands of an entry in range? The job of entry 0 is not looked at.
#[tactic(auto, unfolding(crate::specs::Checks::entry_fits))]
fn entry_fits(header: Header, i: usize, condition: Condition, job: u8) -> bool
    ensures { result ≡ entry_fits header.facts header.jobs i condition job }
{
    tree::is_in_range(header.facts, header.jobs, Leaf::Condition(condition))
        && (i == 0 || tree::is_in_range(header.facts, header.jobs, Leaf::Action(job)))
}

// The first n entries.
#[tactic(auto, using(crate::specs::CheckLaws::entries_passed, crate::specs::CheckLaws::entry_refused))]
fn check_entries(header: Header, n: usize, entries: Entries) -> Result<(), Refusal>
    requires { n ≤ length entries.actions.now }
    ensures { answer_as (entries_in entries.entry n) result ≡ checked_each (checked_entry header.facts header.jobs) 0 (entries_in entries.entry n) }
{
    for i in 0..n {
        if !entry_fits(header, i, entries.condition(i), entries.actions[i]) {
            return Err(Reason::TreeOperandOutOfRange.at(i));
        }
    }
    Ok(())
}

// The most entries that a list may have.
fn max_entries(paired: bool) -> usize
    ensures { result ≡ max_entries paired }
{
    if paired {
        return expander::MAX_PAIRS;
    }
    expander::MAX_ENTRIES
}

// A list of n entries.
#[tactic(auto, using(crate::specs::CheckLaws::list_none, crate::specs::CheckLaws::list_long, crate::specs::CheckLaws::list_sized))]
pub fn check_list(header: Header, n: usize, entries: Entries) -> Result<(), Refusal>
    requires { n ≤ length entries.actions.now }
    ensures { answer_as (entries_in entries.entry n) result
        ≡ checked_list header.paired header.facts header.jobs (entries_in entries.entry n) }
{
    if n == 0 || n > max_entries(header.paired) {
        return Err(Reason::BadTree.at(0));
    }
    check_entries(header, n, entries)
}
