// The table writer: a table, given by its number of facts, the columns of its jobs and its goal, to bytes in a lent slice (document 01, "Commands";
// document 02, W10).
#![tactic(auto)]

ghost use Rattle.std.specs.Prelude.{◌≡◌, ◌+◌, ◌≤◌, ◌<◌, true, length};
ghost use Rattle.std.proofs.lemmas.List.Edits.{sets};
ghost use Rattle.refusal.specs.Checked.{answer_of};
ghost use Rattle.commands.specs.Commands.{FACTS_SIZE, GOAL_SIZE, END_OF_TABLE_SIZE, EFFECTS_WIDTH};
ghost use Rattle.job.specs.Job.{effect_bytes, job_bytes, job_size};
ghost use Rattle.table.specs.Table.{jobs_bytes, goal_bytes};
ghost use Rattle.table.specs.Sound.{validated_table};
ghost use Rattle.table_writer.specs.Columns.{EvenColumns, rows};
ghost use Rattle.table_writer.specs.Write.{columns_in, table_of, placed, Wrote};

pub mod columns;

use columns::Columns;
use job::Job;
use refusal::{Reason, Refusal};

// GOAL and END, with which every table closes.
const CLOSING_SIZE: usize = commands::GOAL_SIZE + commands::END_OF_TABLE_SIZE;

// Why a table is not written.
#[derive(Clone, Copy, Debug, PartialEq, Eq)]
pub enum NotWritten {
    // The lent slice is too short for so many bytes.
    TooShort(usize),
    // The columns differ in length.
    Uneven,
    // No command's bytes can hold this row.
    Unwritable(usize),
    // The refusal that reading the table's bytes would give; 3 where no byte can hold the number of facts.
    Refused(Refusal),
}

impl From<Refusal> for NotWritten {
    ghost use Rattle.table_writer.specs.declared.NotWritten.{NotWritten};

    ghost from_gives = { λ refusal e. e ≡ NotWritten.Refused refusal };

    fn from(refusal: Refusal) -> NotWritten {
        NotWritten::Refused(refusal)
    }
}

// What reading the table's bytes would say of them, found without writing them: where GOAL would stand.
#[tactic(auto, using(crate::specs::WriteLaws::no_facts, crate::specs::WriteLaws::facts_small, crate::specs::WriteLaws::too_many, crate::specs::WriteLaws::row_refused, crate::specs::WriteLaws::goal_refused, crate::specs::WriteLaws::all_passed))]
fn validate_table(facts: usize, columns: Columns<'_>, goal: u64) -> Result<usize, Refusal>
    requires { EvenColumns (columns_in columns) }
    ensures { answer_of result ≡ placed (validated_table (table_of (columns_in columns.entry) facts goal)) }
{
    if !table::facts_in_range(facts) {
        return Err(Reason::FactCountOutOfRange.at(0));
    }
    let limit = facts as u8;
    let mut at: usize = commands::FACTS_SIZE;
    for i in 0..columns.commands.len() {
        if i == table::MAX_JOBS {
            return Err(Reason::TooManyJobs.at(at));
        }
        let row = columns.row(i);
        job::validate_job(limit, at, row)?;
        at += job::size_of(row);
    }
    if !masks::is_within(limit, goal) {
        return Err(Reason::TableMaskOutOfRange.at(at));
    }
    Ok(at)
}

// The adds, deletes and seconds of a job, with which one of either kind closes; the offset past them.
#[tactic(auto, using(crate::specs::WriteLaws::effects_stored))]
fn put_effects(out: &mut [u8], at: usize, job: Job) -> usize
    requires { at + EFFECTS_WIDTH ≤ length out.old }
    ensures { (result ≡ at + EFFECTS_WIDTH) × (out.new ≡ sets out.old at (effect_bytes job)) }
{
    numbers::write_u64(out, at, job.adds);
    numbers::write_u64(out, at + commands::MASK_WIDTH, job.deletes);
    numbers::write_u16(
        out,
        at + commands::MASK_WIDTH + commands::MASK_WIDTH,
        job.seconds,
    );
    at + commands::EFFECTS_WIDTH
}

// A job at an offset, by its command; the offset past it.
fn put_job(out: &mut [u8], at: usize, job: Job) -> usize
    requires { at + job_size job ≤ length out.old }
    ensures { (result ≡ at + job_size job) × (out.new ≡ sets out.old at (job_bytes job)) }
{
    out[at] = job::command_of(job);
    numbers::write_u64(out, at + commands::OPERANDS_AT, job.needs);
    if job.paired {
        numbers::write_u64(out, at + commands::ABSENT_AT, job.absent);
        return put_effects(out, at + commands::PAIRED_ADDS_AT, job);
    }
    put_effects(out, at + commands::ADDS_AT, job)
}

// The jobs of a table, after FACTS and its operand.
#[tactic(auto, using(crate::specs::WriteLaws::row_inside))]
fn put_jobs(columns: Columns<'_>, out: &mut [u8])
    requires { EvenColumns (columns_in columns) × (FACTS_SIZE + length (jobs_bytes (rows (columns_in columns))) ≤ length out.old) }
    ensures { out.new ≡ sets out.old FACTS_SIZE (jobs_bytes (rows (columns_in columns.entry))) }
{
    let mut at: usize = commands::FACTS_SIZE;
    for i in 0..columns.commands.len() {
        at = put_job(out, at, columns.row(i));
    }
}

#[tactic(auto, using(crate::specs::WriteLaws::goal_written))]
fn put_goal(out: &mut [u8], at: usize, goal: u64)
    requires { at + GOAL_SIZE + END_OF_TABLE_SIZE ≤ length out.old }
    ensures { out.new ≡ sets out.old at (goal_bytes goal) }
{
    out[at] = commands::GOAL;
    numbers::write_u64(out, at + commands::OPERANDS_AT, goal);
    out[at + commands::GOAL_SIZE] = commands::END_OF_TABLE;
}

// Writes a table: any number of facts, any columns, any slice.
pub fn write_table(
    facts: usize,
    columns: Columns<'_>,
    goal: u64,
    out: &mut [u8],
) -> Result<usize, NotWritten>
    ensures { Wrote (columns_in columns.entry) facts goal out.old out.new result }
{
    if !columns.are_even() {
        return Err(NotWritten::Uneven);
    }
    if let Some(row) = columns.first_unwritable() {
        return Err(NotWritten::Unwritable(row));
    }
    let goal_at = validate_table(facts, columns, goal)?;
    let size = goal_at + CLOSING_SIZE;
    if out.len() < size {
        return Err(NotWritten::TooShort(size));
    }
    out[0] = commands::FACTS;
    out[commands::OPERANDS_AT] = facts as u8;
    put_jobs(columns, out);
    put_goal(out, goal_at, goal);
    Ok(size)
}
