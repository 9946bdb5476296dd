// The tick of a row of vehicles on one list (document 02, W4): what is lent is judged, then the list is walked once for all of them.
#![tactic(auto)]

ghost use Rattle.std.specs.Prelude.{◌≡◌, ◌≤◌, length};
ghost use Rattle.flat.specs.TreeBytes.{entries_in};
ghost use Rattle.batch_walk.specs.Batch.{readings_in, answer_rows};
ghost use Rattle.batch_tick.specs.BatchTick.{entries_lent, list_lent, vehicles_due, batch_under, WritesAnswers, TicksAll};
ghost use Rattle.refusal.specs.Checked.{answer_of};

use batch_walk::Readings;
use flat::Entries;
use refusal::Refusal;
use table::Header;

// How many entries are lent, by the lengths of their rows. Without a 0x21 the second masks do not count.
#[tactic(auto, unfolding(crate::specs::BatchTick::entries_lent))]
fn entries_lent(paired: bool, entries: Entries) -> usize
    ensures { result ≡ entries_lent paired (length entries.entry.conditions.now)
        (length entries.entry.absences.now) (length entries.entry.actions.now) }
{
    let shorter = entries.conditions.len().min(entries.actions.len());
    if !paired {
        return shorter;
    }
    shorter.min(entries.absences.len())
}

// How many vehicles are answered, by the lengths of their rows.
#[tactic(auto, unfolding(crate::specs::BatchTick::vehicles_due))]
fn vehicles_due(readings: Readings, statuses: usize, values: usize) -> usize
    ensures { result ≡ vehicles_due (length readings.entry.held.now) (length readings.entry.unread.now) statuses values }
{
    let read = readings.held.len().min(readings.unread.len());
    read.min(statuses.min(values))
}

// So many vehicles on a list of so many entries, of a table that was read.
#[tactic(auto, using(crate::specs::BatchTickLaws::list_some), unfolding(crate::specs::BatchTick::batch_under))]
fn tick_vehicles(
    header: Header,
    n: usize,
    entries: Entries,
    vehicles: usize,
    readings: Readings,
    statuses: &mut [u8],
    values: &mut [u64],
) -> Result<usize, Refusal>
    requires { (n ≤ length entries.actions.now)
        × (vehicles ≤ length readings.held.now) × (vehicles ≤ length readings.unread.now)
        × (vehicles ≤ length statuses.old) × (vehicles ≤ length values.old) }
    ensures { WritesAnswers
        (batch_under header (entries_in entries.entry n) (readings_in readings.entry vehicles))
        (answer_rows statuses.old values.old) (answer_rows statuses.new values.new) (answer_of result) }
{
    batch_checks::check_readings(header.facts, vehicles, readings)?;
    batch_checks::check_list(header, n, entries)?;
    Ok(batch_walk::walk_all(n, entries, vehicles, readings, statuses, values))
}

// As many vehicles and entries as the shortest of their rows has, of a table that was read.
#[tactic(auto, using(crate::specs::BatchTickLaws::entries_few, crate::specs::BatchTickLaws::due_few))]
fn tick_under(
    header: Header,
    entries: Entries,
    readings: Readings,
    statuses: &mut [u8],
    values: &mut [u64],
) -> Result<usize, Refusal>
    ensures { WritesAnswers
        (batch_under header
        (list_lent header.paired entries.entry.conditions.now entries.entry.absences.now entries.entry.actions.now)
        (readings_in readings.entry
        (vehicles_due (length readings.entry.held.now) (length readings.entry.unread.now) (length statuses.old) (length values.old))))
        (answer_rows statuses.old values.old) (answer_rows statuses.new values.new) (answer_of result) }
{
    let paired = header.paired;
    let n = entries_lent(paired, entries);
    let used = expander::if_paired(paired, entries.absences.len());
    let vehicles = vehicles_due(readings, statuses.len(), values.len());
    let counted = Entries {
        absences: &entries.absences[..used],
        ..entries
    };
    tick_vehicles(header, n, counted, vehicles, readings, statuses, values)
}

// Ticks every vehicle of a row on one list: any table, any rows. `TicksAll` says what stands in the lent rows afterwards, and that each answer is what
// a single tick gives on the list's tree. The answer is how many entries were read.
pub fn tick_all(
    table: &[u8],
    entries: Entries,
    readings: Readings,
    statuses: &mut [u8],
    values: &mut [u64],
) -> Result<usize, Refusal>
    ensures { TicksAll table.now entries.entry.conditions.now
        entries.entry.absences.now entries.entry.actions.now readings.entry.held.now
        readings.entry.unread.now (answer_rows statuses.old values.old) (answer_rows statuses.new values.new) (answer_of result) }
{
    let header = table::read_table(table)?;
    tick_under(header, entries, readings, statuses, values)
}
