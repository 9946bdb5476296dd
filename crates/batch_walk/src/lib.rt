// One walk over a list of entries for a row of vehicles (document 02, W4): each entry is fetched once, and asked of the vehicles that failed all
// entries before it, but for those that are read to lack a fact of its first mask. A vehicle's answer so far stands in two lent rows; Failure is the
// mark of one that goes on.
#![tactic(auto)]

ghost use Rattle.std.specs.Prelude.{◌≡◌, ◌≤◌, ◌<◌, length, get_or};
ghost use Rattle.tree.specs.declared.Status.TheVariants.{Failure};
ghost use Rattle.tree.specs.StatusNumbers.{status_number};
ghost use Rattle.flat.specs.TreeBytes.{entries_in};
ghost use Rattle.batch_walk.specs.Batch.{reading_at, readings_in, answer_rows, Walks};
ghost use Rattle.batch_walk.specs.Steps.{numbered, met_at, over_rows, Asks, AsksAll, may_meet, NextAsked};

use conditions::{Condition, Evaluation};
use flat::Entries;
use reading::Reading;

// The readings of a row of vehicles, lent as their held and their unread masks.
#[derive(Clone, Copy)]
pub struct Readings<'a> {
    pub held: &'a [u64],
    pub unread: &'a [u64],
}

impl Readings<'_> {
    pub fn at(self, v: usize) -> Reading
        requires { (v < length self.held.now) × (v < length self.unread.now) }
        ensures { result ≡ reading_at self.entry.held.now self.entry.unread.now v }
    {
        let held = self.held[v];
        let unread = self.unread[v];
        Reading { held, unread }
    }
}

// A status and the job or mask that comes with it, as they stand in the rows of answers.
#[derive(Clone, Copy)]
pub struct Numbered {
    pub status: u8,
    pub value: u64,
}

const SUCCESS: u8 = 0;

const FAILURE: u8 = 1;

const RUNNING: u8 = 2;

const UNSETTLED: u8 = 3;

// What a tick answers where the condition of an entry with this job is met.
fn met_at(entry: usize, job: u8) -> Numbered
    ensures { result ≡ numbered (met_at entry job) }
{
    if entry == 0 {
        return Numbered {
            status: SUCCESS,
            value: 0,
        };
    }
    Numbered {
        status: RUNNING,
        value: job as u64,
    }
}

// Every vehicle goes on.
fn start_all(vehicles: usize, statuses: &mut [u8], values: &mut [u64])
    requires { (vehicles ≤ length statuses.old) × (vehicles ≤ length values.old) }
    ensures { answer_rows statuses.new values.new ≡ over_rows (λ v. numbered Failure) vehicles (answer_rows statuses.old values.old) }
{
    // Vehicle by vehicle, and not as slices, so that nothing is asked of the C library.
    for v in 0..vehicles {
        statuses[v] = FAILURE;
        values[v] = 0;
    }
}

// Does a vehicle go on, and is it not read to lack a fact of an entry's first mask?
#[tactic(auto, unfolding(crate::specs::Steps::may_meet))]
fn may_meet(present: u64, v: usize, readings: Readings, statuses: &[u8]) -> bool
    requires { (v < length readings.held.now) × (v < length readings.unread.now) × (v < length statuses.now) }
    ensures { result ≡ may_meet present (reading_at readings.entry.held.now readings.entry.unread.now v) (get_or statuses.now v 0) }
{
    if statuses[v] != FAILURE {
        return false;
    }
    let reading = readings.at(v);
    masks::is_subset(present, masks::join(reading.held, reading.unread))
}

// The next such vehicle, from one on: most are passed over here, in a loop of its own.
#[inline(never)]
fn next_asked(
    present: u64,
    first: usize,
    vehicles: usize,
    readings: Readings,
    statuses: &[u8],
) -> Option<usize>
    requires { (vehicles ≤ length readings.held.now) × (vehicles ≤ length readings.unread.now) × (vehicles ≤ length statuses.now) }
    ensures { NextAsked present readings.entry.held.now readings.entry.unread.now statuses.now first vehicles result }
{
    for v in first..vehicles {
        if may_meet(present, v, readings, statuses) {
            return Some(v);
        }
    }
    None
}

// Asks an entry of one vehicle that goes on. How many stop there: 1 or 0?
#[tactic(auto, unfolding(crate::specs::Steps::stepped, crate::specs::Steps::stops))]
fn ask(
    condition: Condition,
    met: Numbered,
    v: usize,
    reading: Reading,
    statuses: &mut [u8],
    values: &mut [u64],
) -> usize
    requires { (v < length statuses.old) × (v < length values.old) × (get_or statuses.old v 0 ≡ status_number Failure) }
    ensures { Asks condition met reading v
        (answer_rows statuses.old values.old) (answer_rows statuses.new values.new) result }
{
    match conditions::evaluate(reading, condition) {
        Evaluation::Missed => 0,
        Evaluation::Met => {
            statuses[v] = met.status;
            values[v] = met.value;
            1
        }
        Evaluation::Open(mask) => {
            statuses[v] = UNSETTLED;
            values[v] = mask;
            1
        }
    }
}

// Asks an entry of the vehicles that go on, but for those that it cannot stop. How many stop there?
fn ask_all(
    condition: Condition,
    met: Numbered,
    vehicles: usize,
    readings: Readings,
    statuses: &mut [u8],
    values: &mut [u64],
) -> usize
    requires { (vehicles ≤ length readings.held.now) × (vehicles ≤ length readings.unread.now)
        × (vehicles ≤ length statuses.old) × (vehicles ≤ length values.old) }
    ensures { AsksAll condition met readings.entry.held.now readings.entry.unread.now vehicles
        (answer_rows statuses.old values.old) (answer_rows statuses.new values.new) result }
{
    let present = condition.present;
    let mut stopped: usize = 0;
    let mut first: usize = 0;
    while let Some(v) = next_asked(present, first, vehicles, readings, statuses) {
        stopped += ask(condition, met, v, readings.at(v), statuses, values);
        first = v + 1;
    }
    stopped
}

// Entries outside, vehicles inside, up to the entry after which no vehicle goes on. The answer is the number of entries that were fetched.
pub fn walk_all(
    n: usize,
    entries: Entries,
    vehicles: usize,
    readings: Readings,
    statuses: &mut [u8],
    values: &mut [u64],
) -> usize
    requires { (1 ≤ n) × (n ≤ length entries.actions.now)
        × (vehicles ≤ length readings.held.now) × (vehicles ≤ length readings.unread.now)
        × (vehicles ≤ length statuses.old) × (vehicles ≤ length values.old) }
    ensures { Walks (entries_in entries.entry n) (readings_in readings.entry vehicles)
        (answer_rows statuses.old values.old) (answer_rows statuses.new values.new) result }
{
    start_all(vehicles, statuses, values);
    if vehicles == 0 {
        return 0;
    }
    let mut going = vehicles;
    for entry in 0..n {
        let condition = entries.condition(entry);
        let met = met_at(entry, entries.actions[entry]);
        going -= ask_all(condition, met, vehicles, readings, statuses, values);
        if going == 0 {
            return entry + 1;
        }
    }
    n
}
