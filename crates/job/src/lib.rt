// One job of a table: read from its bytes, and validated (document 01, "Commands" and stops 5 and 6; document 02, W3, 19, and W10, 22).
#![tactic(auto)]

ghost use Rattle.std.specs.Prelude.{◌≡◌, ◌+◌, ◌≤◌, length};
ghost use Rattle.commands.specs.Commands.{ADDS_AT, EFFECTS_WIDTH};
ghost use Rattle.job.specs.Job.{action_of, command_by, job_size, job_with, job_from, past_job_of};
ghost use Rattle.job.specs.Validation.{in_range, overlaps, validated_job};
ghost use Rattle.refusal.specs.Checked.{answer_as};

use conditions::Action;
use refusal::{Reason, Refusal};

// Document 01's job: the facts that it needs, those that it needs absent, those that it adds and deletes, the seconds that it is listed with, and
// whether its command is the one with absent facts.
#[derive(Clone, Copy)]
pub struct Job {
    pub needs: u64,
    pub absent: u64,
    pub adds: u64,
    pub deletes: u64,
    pub seconds: u16,
    pub paired: bool,
}

// What the job needs and does, without its seconds.
pub fn action_of(job: Job) -> Action
    ensures { result ≡ action_of job }
{
    Action {
        needs: job.needs,
        absent: job.absent,
        adds: job.adds,
        deletes: job.deletes,
    }
}

// The command with which a job stands in a table.
pub fn command_of(job: Job) -> u8
    ensures { result ≡ command_by job.paired }
{
    if job.paired {
        return commands::PAIRED_JOB;
    }
    commands::JOB
}

// The bytes that a job takes in a table.
pub fn size_of(job: Job) -> usize
    ensures { result ≡ job_size job }
{
    if job.paired {
        return commands::PAIRED_JOB_SIZE;
    }
    commands::JOB_SIZE
}

// A job that was read, and the offset past it.
#[derive(Clone, Copy)]
pub struct PastJob {
    pub job: Job,
    pub next: usize,
}

// The job at an offset, whose absent facts are known and whose adds, deletes and seconds stand so many bytes on.
fn job_with(s: &[u8], at: usize, paired: bool, absent: u64, adds_at: usize) -> PastJob
    requires { (at + (adds_at + EFFECTS_WIDTH) ≤ length s.now) × (ADDS_AT ≤ adds_at) }
    ensures { past_job_of result ≡ record { value = job_with paired absent adds_at s.now at; next = at + (adds_at + EFFECTS_WIDTH) } }
{
    let effects = at + adds_at;
    let needs = numbers::read_u64(s, at + commands::OPERANDS_AT);
    let adds = numbers::read_u64(s, effects);
    let deletes = numbers::read_u64(s, effects + commands::MASK_WIDTH);
    let seconds = numbers::read_u16(s, effects + commands::MASK_WIDTH + commands::MASK_WIDTH);
    let next = effects + commands::EFFECTS_WIDTH;
    PastJob {
        job: Job {
            needs,
            absent,
            adds,
            deletes,
            seconds,
            paired,
        },
        next,
    }
}

// The job at an offset, where it is whole.
pub fn job_from(s: &[u8], at: usize) -> PastJob
    requires { (job_from s.now at).next ≤ length s.now }
    ensures { past_job_of result ≡ job_from s.now at }
{
    let byte = s[at];
    if byte == commands::PAIRED_JOB {
        let absent = numbers::read_u64(s, at + commands::ABSENT_AT);
        return job_with(s, at, true, absent, commands::PAIRED_ADDS_AT);
    }
    job_with(s, at, false, 0, commands::ADDS_AT)
}

// The most seconds that a job may be listed with.
pub const MAX_SECONDS: u16 = 5_400;

// One test of all masks: a union is within the facts exactly where each of them is.
fn masks_in_range(facts: u8, job: Job) -> bool
    ensures { result ≡ in_range facts job }
{
    let asked = masks::join(job.needs, job.absent);
    let changed = masks::join(job.adds, job.deletes);
    masks::is_within(facts, masks::join(asked, changed))
}

fn effects_overlap(job: Job) -> bool
    ensures { result ≡ overlaps job }
{
    masks::share_fact(job.adds, job.deletes) || masks::share_fact(job.adds, job.needs)
}

// A job's masks against the number of facts and against each other, then its seconds; `at` is where its command stands.
#[tactic(auto, using(crate::proofs::ValidationLaws::validated_out, crate::proofs::ValidationLaws::validated_overlap, crate::proofs::ValidationLaws::validated_long, crate::proofs::ValidationLaws::validated_contradicts, crate::proofs::ValidationLaws::validated_sound))]
pub fn validate_job(facts: u8, at: usize, job: Job) -> Result<(), Refusal>
    ensures { answer_as job result ≡ validated_job facts at job }
{
    if !masks_in_range(facts, job) {
        return Err(Reason::TableMaskOutOfRange.at(at));
    }
    if effects_overlap(job) {
        return Err(Reason::EffectsOverlap.at(at));
    }
    if job.seconds > MAX_SECONDS {
        return Err(Reason::JobTooLong.at(at));
    }
    if masks::share_fact(job.needs, job.absent) {
        return Err(Reason::NeedsContradict.at(at));
    }
    Ok(())
}
