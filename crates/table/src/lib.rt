// The job table, read from bytes, with every check that the papers make of a table (document 01, "Commands" and "Stops, in
// checking order", 1 to 7; document 02, W3, 19, and W10, 22).
#![tactic(auto)]

ghost use Rattle.std.specs.Prelude.{◌≡◌, ◌+◌, ◌≤◌, ◌<◌, length, get_or, ◌||◌, List, []};
ghost use Rattle.refusal.specs.Checked.{accepted, and_then, answer_of};
ghost use Rattle.commands.specs.Commands.{GOAL_SIZE};
ghost use Rattle.job.specs.Job.{no_job};
ghost use Rattle.table.specs.Table.{Table, max_jobs, has_pair};
ghost use Rattle.table.specs.Read.{allowed, due, due_of, facts_in_range, read_end, read_goal, read_jobs, read_table, jobs_of, named_job, header_of, headed};

use commands::Found;
use job::Job;
use refusal::{Reason, Refusal};

// The most facts and jobs that a table may have.
pub const MAX_FACTS: usize = 64;

pub const MAX_JOBS: usize = 128;

// What a sound table says besides its jobs; `paired` where one of them has the command with absent facts.
#[derive(Clone, Copy)]
pub struct Header {
    pub facts: u8,
    pub jobs: usize,
    pub goal: u64,
    pub paired: bool,
}

// Where in a table a command stands.
#[derive(Clone, Copy)]
pub enum Stage {
    // FACTS is due.
    First,
    // A JOB or GOAL is due.
    Middle,
    // END is due.
    Last,
}

// A command that may stand there, with the offset past its operands. The offset stands first: with the byte in front the gap after it is copied for
// every command, and reading a table takes more than twice the time.
#[derive(Clone, Copy)]
struct Due {
    next: usize,
    byte: u8,
}

fn is_allowed(stage: Stage, byte: u8) -> bool
    ensures { result ≡ allowed stage byte }
{
    match stage {
        Stage::First => byte == commands::FACTS,
        Stage::Middle => {
            if byte == commands::JOB {
                return true;
            }
            byte == commands::PAIRED_JOB || byte == commands::GOAL
        }
        Stage::Last => byte == commands::END_OF_TABLE,
    }
}

// The command at an offset, checked as far as its operands' presence.
fn command_due(s: &[u8], at: usize, stage: Stage) -> Result<Due, Refusal>
    ensures { due_of result ≡ due stage s.now at }
{
    match commands::command_at(s, at) {
        Found::Missing => Err(Reason::TableCut.at(s.len())),
        Found::Unknown => Err(Reason::CommandNotAllowed.at(at)),
        Found::Cut(cut) => {
            if is_allowed(stage, cut) {
                Err(Reason::TableCut.at(at))
            } else {
                Err(Reason::CommandNotAllowed.at(at))
            }
        }
        Found::Whole(byte, next) => {
            if is_allowed(stage, byte) {
                Ok(Due { next, byte })
            } else {
                Err(Reason::CommandNotAllowed.at(at))
            }
        }
    }
}

// END at an offset, and nothing after it.
#[tactic(auto, using(crate::proofs::ReadLaws::end_inside, crate::proofs::ReadLaws::end_refused, crate::proofs::ReadLaws::end_whole, crate::proofs::ReadLaws::end_more))]
fn read_end(s: &[u8], header: Header, at: usize) -> Result<Header, Refusal>
    ensures { (t : Table) → header_of t ≡ header → answer_of result ≡ headed (read_end s.now t at) }
{
    let end = command_due(s, at, Stage::Last)?;
    if end.next != s.len() {
        return Err(Reason::BytesAfterTable.at(end.next));
    }
    Ok(header)
}

// GOAL at an offset, whose operand ends before `next`, after as many jobs.
fn read_goal(
    s: &[u8],
    facts: u8,
    jobs: usize,
    paired: bool,
    at: usize,
    next: usize,
) -> Result<Header, Refusal>
    requires { at + GOAL_SIZE ≤ length s.now }
    ensures { (js : List Job) → length js ≡ jobs → has_pair js ≡ paired → answer_of result ≡ headed (read_goal s.now facts js at next) }
{
    let goal = numbers::read_u64(s, at + commands::OPERANDS_AT);
    if !masks::is_within(facts, goal) {
        return Err(Reason::TableMaskOutOfRange.at(at));
    }
    read_end(
        s,
        Header {
            facts,
            jobs,
            goal,
            paired,
        },
        next,
    )
}

// Has one of the jobs before, or this one, the command with absent facts?
fn with_pair(before: bool, job: Job) -> bool
    ensures { result ≡ (before || job.paired) }
{
    before || job.paired
}

// The JOBs from an offset on, then GOAL and END.
fn read_jobs(s: &[u8], facts: u8, first: usize) -> Result<Header, Refusal>
    ensures { answer_of result ≡ headed (read_jobs s.now facts max_jobs [] first) }
{
    let mut at = first;
    let mut jobs: usize = 0;
    let mut paired = false;
    loop {
        let due = command_due(s, at, Stage::Middle)?;
        if due.byte == commands::GOAL {
            return read_goal(s, facts, jobs, paired, at, due.next);
        }
        if jobs == MAX_JOBS {
            return Err(Reason::TooManyJobs.at(at));
        }
        let past = job::job_from(s, at);
        let job = past.job;
        job::validate_job(facts, at, job)?;
        at = due.next;
        jobs += 1;
        paired = with_pair(paired, job);
    }
}

pub fn facts_in_range(facts: usize) -> bool
    ensures { result ≡ facts_in_range facts }
{
    if facts < 1 {
        return false;
    }
    facts <= MAX_FACTS
}

// Reads a table: any bytes.
pub fn read_table(s: &[u8]) -> Result<Header, Refusal>
    ensures { answer_of result ≡ headed (read_table s.now) }
{
    let due = command_due(s, 0, Stage::First)?;
    let facts = s[commands::OPERANDS_AT];
    if !facts_in_range(facts as usize) {
        return Err(Reason::FactCountOutOfRange.at(0));
    }
    read_jobs(s, facts, due.next)
}

// A job of a sound table: jobs are walked from the first on, since each stands past the one before.
fn job_at(table: &[u8], index: usize) -> Job
    requires { index < length (jobs_of (read_table table.now)) }
    ensures { result ≡ get_or (jobs_of (read_table table.now)) index no_job }
{
    let mut at: usize = commands::FACTS_SIZE;
    for _ in 0..index {
        let past = job::job_from(table, at);
        at = past.next;
    }
    let past = job::job_from(table, at);
    past.job
}

// A job by its number, of a table that was read already; `place` is told where no job has the number.
pub fn named_job(table: &[u8], header: Header, index: usize, place: usize) -> Result<Job, Refusal>
    requires { accepted header ≡ headed (read_table table.now) }
    ensures { (t : Table) → accepted t ≡ read_table table.now → answer_of result ≡ named_job t index place }
{
    if index >= header.jobs {
        return Err(Reason::NoSuchJob.at(place));
    }
    Ok(job_at(table, index))
}

// A job by its number: any bytes, any number.
pub fn read_job(table: &[u8], index: usize) -> Result<Job, Refusal>
    ensures { answer_of result ≡ and_then (read_table table.now) (λ t. named_job t index 0) }
{
    let header = read_table(table)?;
    named_job(table, header, index, 0)
}
