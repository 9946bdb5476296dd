// The plan for a vehicle: from a table's bytes and a start reading, the list of conditions, its tree, and the way with its time (document 01,
// "Expansion" and "Job card", the table's stops and 8 to 12; document 02, W5 and W10).
#![tactic(auto)]

ghost use Rattle.std.specs.Prelude.{◌≡◌, suc, ◌-◌, length};
ghost use Rattle.refusal.specs.Checked.{accepted, answer_of};
ghost use Rattle.table.specs.Read.{read_table, jobs_of, headed};
ghost use Rattle.planning.specs.Listing.{path};
ghost use Rattle.minutes.specs.Minutes.{nearest};
ghost use Rattle.expander.specs.Expands.{columns};
ghost use Rattle.planner.specs.Way.{linked, Linked, Traced, row_seconds, InTime};
ghost use Rattle.planner.specs.Plan.{seconds_of, start_for};
ghost use Rattle.planner.specs.Promise.{Plans};

use builder::Size;
use expander::Until;
use reading::Reading;
use refusal::Refusal;
use table::Header;

// What a plan gives besides its list and tree. The jobs and the minutes are those of the way from the start; `paired` where list and tree hold second
// masks.
#[derive(Clone, Copy)]
pub struct Summary {
    pub entries: usize,
    pub bytes: usize,
    pub jobs: usize,
    pub minutes: u32,
    pub paired: bool,
}

// The table, and the start under it.
fn start_for(table: &[u8], start: Reading) -> Result<Header, Refusal>
    ensures { answer_of result ≡ headed (start_for table.now start) }
{
    let header = table::read_table(table)?;
    reading::check_start(header.facts, start)?;
    Ok(header)
}

// The listed seconds from entry `last` along the parents to entry 0, by a row of the jobs' seconds.
fn way_seconds(seconds: &[u16], last: usize, actions: &[u8], parents: &[u16]) -> u32
    requires { Linked (length seconds.now) (suc last) actions.now parents.now × InTime seconds.now }
    ensures { result ≡ row_seconds seconds.now (path (linked actions.now parents.now) last) }
{
    let mut sum: u32 = 0;
    let mut i = last;
    while i != 0 {
        let job = actions[i] as usize;
        sum += seconds[job] as u32;
        i = parents[i] as usize;
    }
    sum
}

// What there is to tell of a list that stands in the columns, and of its tree.
fn summarize(
    table: &[u8],
    header: Header,
    size: Size,
    actions: &[u8],
    parents: &[u16],
    depths: &[u16],
) -> Summary
    requires { (accepted header ≡ headed (read_table table.now))
        × Traced (length (jobs_of (read_table table.now))) size.entries actions.now parents.now depths.now }
    ensures { result ≡ record {
      entries = size.entries;
      bytes = size.bytes;
      jobs = length (path (linked actions.now parents.now) (size.entries - 1));
      minutes = nearest (seconds_of (jobs_of (read_table table.now)) (path (linked actions.now parents.now) (size.entries - 1)));
      paired = size.paired;
    } }
{
    let count = header.jobs;
    let last = size.entries - 1;
    let jobs = depths[last] as usize;
    let mut seconds = [0u16; table::MAX_JOBS];
    job_rows::load(table, count, |job| job.seconds, &mut seconds);
    let minutes = minutes::whole_minutes(way_seconds(&seconds[..count], last, actions, parents));
    Summary {
        entries: size.entries,
        bytes: size.bytes,
        jobs,
        minutes,
        paired: size.paired,
    }
}

// Plans for a vehicle: any table, any start, any lent tables. `Plans` says what stands in every lent slice afterwards, and what
// holds of the plan: from every covered state the ticks of its tree lead to the goal by the fewest jobs, and no way means that there
// is none.
pub fn plan(
    table: &[u8],
    start: Reading,
    conditions: &mut [u64],
    absences: &mut [u64],
    actions: &mut [u8],
    parents: &mut [u16],
    depths: &mut [u16],
    tree: &mut [u8],
) -> Result<Summary, Refusal>
    ensures { Plans table.now start
        (columns conditions.old absences.old actions.old parents.old depths.old)
        (columns conditions.new absences.new actions.new parents.new depths.new)
        tree.old tree.new result }
{
    let header = start_for(table, start)?;
    let size = builder::build(
        table,
        header,
        Until::Covers(start.held),
        conditions,
        absences,
        actions,
        parents,
        depths,
        tree,
    )?;
    Ok(summarize(table, header, size, actions, parents, depths))
}
