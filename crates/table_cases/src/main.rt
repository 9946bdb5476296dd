// Runs the table writer and reader over document 01's trailer table, over one of both kinds of jobs (document 02, W10) and over damaged copies
// of both, and prints what they answer. What is printed is compared with the file `stdout`, which an account of the papers made that shares no code with ours.
#![tactic(auto)]

use job::Job;
use refusal::Refusal;
use std::io;
use table_writer::NotWritten;
use table_writer::columns::Columns;

fn number(rt: &impl Print, n: usize) -> io::Result<()> {
    print!(rt; " {n}")
}

fn mask(rt: &impl Print, m: u64) -> io::Result<()> {
    print!(rt; " {m:016x}")
}

fn show_refusal(rt: &impl Print, x: Refusal) -> io::Result<()> {
    print!(rt; "refused")?;
    number(rt, u8::from(x.reason) as usize)?;
    number(rt, x.place)
}

// One line: what reading the bytes answers.
fn show(rt: &impl Print, s: &[u8]) -> io::Result<()> {
    match table::read_table(s) {
        Ok(header) => {
            print!(rt; "table")?;
            number(rt, header.facts as usize)?;
            number(rt, header.jobs)?;
            mask(rt, header.goal)?;
            if header.paired {
                print!(rt; " paired")?;
            }
        }
        Err(x) => {
            show_refusal(rt, x)?;
        }
    }
    print!(rt; "\n")
}

// A job; of one with the command for absent facts, these and the command besides.
fn show_job(rt: &impl Print, i: usize, job: Job) -> io::Result<()> {
    print!(rt; "job")?;
    number(rt, i)?;
    mask(rt, job.needs)?;
    mask(rt, job.adds)?;
    mask(rt, job.deletes)?;
    number(rt, job.seconds as usize)?;
    if job.paired {
        mask(rt, job.absent)?;
        number(rt, job::command_of(job) as usize)?;
    }
    Ok(())
}

// One line for each of the first `count` job numbers.
fn show_jobs(rt: &impl Print, s: &[u8], count: usize) -> io::Result<()> {
    for i in 0..count {
        match table::read_job(s, i) {
            Ok(job) => {
                show_job(rt, i, job)?;
            }
            Err(x) => {
                show_refusal(rt, x)?;
            }
        }
        print!(rt; "\n")?;
    }
    Ok(())
}

// The first bytes, where there are so many.
fn show_part(rt: &impl Print, s: &[u8], k: usize) -> io::Result<()> {
    if k <= s.len() {
        show(rt, &s[..k])?;
    }
    Ok(())
}

// Every beginning of the bytes.
fn show_cuts(rt: &impl Print, s: &[u8]) -> io::Result<()> {
    for k in 0..s.len() {
        show_part(rt, s, k)?;
    }
    Ok(())
}

// Every byte changed, by flipping the bits of `flip`, one at a time.
fn show_changes(rt: &impl Print, s: &mut [u8], flip: u8) -> io::Result<()> {
    for k in 0..s.len() {
        let b = s[k];
        s[k] = b ^ flip;
        show(rt, s)?;
        s[k] = b;
    }
    Ok(())
}

// What writing answers.
fn show_written(rt: &impl Print, w: Result<usize, NotWritten>) -> io::Result<()> {
    match w {
        Ok(n) => {
            print!(rt; "written")?;
            number(rt, n)?;
        }
        Err(NotWritten::TooShort(n)) => {
            print!(rt; "short")?;
            number(rt, n)?;
        }
        Err(NotWritten::Uneven) => {
            print!(rt; "uneven")?;
        }
        Err(NotWritten::Unwritable(i)) => {
            print!(rt; "unwritable")?;
            number(rt, i)?;
        }
        Err(NotWritten::Refused(x)) => {
            show_refusal(rt, x)?;
        }
    }
    print!(rt; "\n")
}

// One byte at an offset, where there is one.
fn put(s: &mut [u8], at: usize, b: u8) {
    if at < s.len() {
        s[at] = b;
    }
}

// The bytes with one of them replaced.
fn show_with(rt: &impl Print, s: &mut [u8], at: usize, b: u8) -> io::Result<()> {
    put(s, at, b);
    show(rt, s)
}

// One job more than a table may have.
const MANY: usize = table::MAX_JOBS + 1;

// A table of as many equal jobs of one kind, whole and with its last job cut.
fn show_many(rt: &impl Print, count: usize, command: u8, size: usize) -> io::Result<()> {
    let mut out = [0u8; 4608];
    if MANY < count {
        return Ok(());
    }
    if commands::PAIRED_JOB_SIZE < size {
        return Ok(());
    }
    put(&mut out, 0, commands::FACTS);
    put(&mut out, commands::OPERANDS_AT, 64);
    let mut at: usize = commands::FACTS_SIZE;
    for _ in 0..count {
        put(&mut out, at, command);
        at += size;
    }
    show_part(rt, &out, at)?;
    show_part(rt, &out, at - 1)?;
    put(&mut out, at, commands::GOAL);
    put(&mut out, at + commands::GOAL_SIZE, commands::END_OF_TABLE);
    let end = at + commands::GOAL_SIZE + commands::END_OF_TABLE_SIZE;
    show_part(rt, &out, end)?;
    show_part(rt, &out, end + 1)
}

// The command at an offset replaced by each command byte in turn, and then by its own again.
fn show_commands(rt: &impl Print, s: &mut [u8], at: usize, own: u8) -> io::Result<()> {
    for c in commands::COMMANDS {
        show_with(rt, s, at, c.byte)?;
    }
    put(s, at, own);
    Ok(())
}

// What writing a table of five jobs answers.
fn show_columns(
    rt: &impl Print,
    facts: usize,
    commands: [u8; 5],
    needs: [u64; 5],
    absent: [u64; 5],
    adds: [u64; 5],
    deletes: [u64; 5],
    seconds: [u16; 5],
    goal: u64,
    out: &mut [u8],
) -> io::Result<()> {
    show_written(
        rt,
        table_writer::write_table(
            facts,
            Columns {
                commands: &commands,
                needs: &needs,
                absent: &absent,
                adds: &adds,
                deletes: &deletes,
                seconds: &seconds,
            },
            goal,
            out,
        ),
    )
}

// The trailer's jobs.
const PLAIN: [u8; 5] = [commands::JOB; 5];

const NEEDS: [u64; 5] = [0x01, 0x02, 0x01, 0x02, 0x0c];

const NONE: [u64; 5] = [0; 5];

const ADDS: [u64; 5] = [0x02, 0x01, 0x04, 0x08, 0x10];

const DELETES: [u64; 5] = [0x01, 0x02, 0x00, 0x00, 0x00];

const SECONDS: [u16; 5] = [300, 240, 600, 600, 150];

// What writing the trailer's table with other effects and seconds answers.
fn show_writing(
    rt: &impl Print,
    facts: usize,
    adds: [u64; 5],
    deletes: [u64; 5],
    seconds: [u16; 5],
    goal: u64,
    out: &mut [u8],
) -> io::Result<()> {
    show_columns(
        rt, facts, PLAIN, NEEDS, NONE, adds, deletes, seconds, goal, out,
    )
}

// What writing the trailer's table with so many facts answers.
fn show_facts(rt: &impl Print, facts: usize, out: &mut [u8]) -> io::Result<()> {
    show_writing(rt, facts, ADDS, DELETES, SECONDS, 0x10, out)
}

// A table of five jobs, whole, cut and changed.
fn show_damaged(rt: &impl Print, s: &mut [u8]) -> io::Result<()> {
    show(rt, s)?;
    show_jobs(rt, s, 6)?;
    show_cuts(rt, s)?;
    show_changes(rt, s, 0x80)?;
    show_changes(rt, s, 0x01)?;
    show_changes(rt, s, 0x3F)
}

// The trailer's FACTS, second JOB, GOAL and END replaced, one at a time.
fn show_replaced(rt: &impl Print, out: &mut [u8]) -> io::Result<()> {
    show_commands(rt, out, 0, commands::FACTS)?;
    show_commands(rt, out, 29, commands::JOB)?;
    show_commands(rt, out, 137, commands::GOAL)?;
    show_commands(rt, out, 146, commands::END_OF_TABLE)?;
    show(rt, out)
}

// Tables that the writer refuses, and what they leave of the lent bytes.
fn show_refused(rt: &impl Print, out: &mut [u8]) -> io::Result<()> {
    show_facts(rt, 0, out)?;
    show_facts(rt, 64, out)?;
    show_facts(rt, 65, out)?;
    show_facts(rt, 4, out)?;
    show_writing(rt, 5, ADDS, DELETES, SECONDS, 0x20, out)?;
    show_writing(rt, 5, ADDS, NEEDS, SECONDS, 0x10, out)?;
    show_writing(rt, 5, NEEDS, DELETES, SECONDS, 0x10, out)
}

// Columns of different length, beside a row that cannot be written, and a slice that is one byte too short.
fn show_misfits(rt: &impl Print, out: &mut [u8]) -> io::Result<()> {
    let four = [0x02u64, 0x01, 0x04, 0x08];
    show_written(
        rt,
        table_writer::write_table(
            5,
            Columns {
                commands: &NO_JOB,
                needs: &NEEDS,
                absent: &NONE,
                adds: &four,
                deletes: &DELETES,
                seconds: &SECONDS,
            },
            0x10,
            out,
        ),
    )?;
    let mut short = [0u8; 146];
    show_facts(rt, 5, &mut short)?;
    show(rt, out)
}

const LONGEST: [u16; 5] = [5_400, 0, 5_400, 0, 5_400];

const LONGER: [u16; 5] = [5_400, 0, 5_401, 0, 5_400];

// Deletes that overlap in the job that is longer, and in the one after it.
const OVERLAP: [u64; 5] = [0x01, 0x02, 0x04, 0x00, 0x00];

const LATER: [u64; 5] = [0x01, 0x02, 0x00, 0x08, 0x00];

// Jobs of the most seconds.
fn show_longest(rt: &impl Print, out: &mut [u8]) -> io::Result<()> {
    show_writing(rt, 5, ADDS, DELETES, LONGEST, 0x10, out)?;
    show(rt, out)?;
    show_jobs(rt, out, 5)
}

// A longer job, alone and beside other faults.
fn show_longer(rt: &impl Print, out: &mut [u8]) -> io::Result<()> {
    show_writing(rt, 5, ADDS, DELETES, LONGER, 0x10, out)?;
    show_writing(rt, 5, ADDS, OVERLAP, LONGER, 0x10, out)?;
    show_writing(rt, 5, ADDS, LATER, LONGER, 0x10, out)?;
    show_writing(rt, 5, ADDS, DELETES, LONGER, 0x20, out)?;
    show_writing(rt, 2, ADDS, DELETES, LONGER, 0x10, out)?;
    show(rt, out)
}

// The low byte of job 2's seconds makes them 5,401: alone, with its operands cut, and with faults of later commands.
fn show_longer_read(rt: &impl Print, out: &mut [u8]) -> io::Result<()> {
    show_with(rt, out, 81, 0x19)?;
    show_part(rt, out, 82)?;
    show_part(rt, out, 146)?;
    show_with(rt, out, 137, commands::JOB)
}

// Both kinds of jobs: a trailer that needs not to be on. Job 0 adds a fact that it needs absent, job 2 deletes one, and job 4 needs none absent.
const MIXED: [u8; 5] = [
    commands::PAIRED_JOB,
    commands::JOB,
    commands::PAIRED_JOB,
    commands::JOB,
    commands::PAIRED_JOB,
];

const MIXED_NEEDS: [u64; 5] = [0x00, 0x02, 0x01, 0x02, 0x0c];

const ABSENT: [u64; 5] = [0x02, 0x00, 0x02, 0x00, 0x00];

const MIXED_DELETES: [u64; 5] = [0x01, 0x02, 0x02, 0x00, 0x00];

// What writing the table of both kinds with other commands and absent facts answers.
fn show_mixing(
    rt: &impl Print,
    facts: usize,
    commands: [u8; 5],
    absent: [u64; 5],
    out: &mut [u8],
) -> io::Result<()> {
    show_columns(
        rt,
        facts,
        commands,
        MIXED_NEEDS,
        absent,
        ADDS,
        MIXED_DELETES,
        SECONDS,
        0x10,
        out,
    )
}

// Its first three jobs replaced, one at a time.
fn show_mixed_replaced(rt: &impl Print, out: &mut [u8]) -> io::Result<()> {
    show_commands(rt, out, 2, commands::PAIRED_JOB)?;
    show_commands(rt, out, 37, commands::JOB)?;
    show_commands(rt, out, 64, commands::PAIRED_JOB)
}

// Job 2's needs and absent facts meet: alone, with its operands cut, with a fault of a later command, and beside its other faults.
fn show_contradiction(rt: &impl Print, out: &mut [u8]) -> io::Result<()> {
    show_with(rt, out, 73, 0x03)?;
    show_part(rt, out, 98)?;
    show_with(rt, out, 161, commands::JOB)?;
    put(out, 97, 0x19);
    show_with(rt, out, 98, 0x15)?;
    show_with(rt, out, 81, 0x01)?;
    show_with(rt, out, 73, 0x23)
}

// Rows that no command's bytes can hold: a JOB with absent facts, and commands that are no job's.
const DROPPED: [u64; 5] = [0x02, 0x01, 0x02, 0x01, 0x00];

const NO_JOB: [u8; 5] = [
    commands::PAIRED_JOB,
    commands::JOB,
    commands::PAIRED_JOB,
    commands::JOB,
    commands::JOB_LEAF,
];

const NO_JOB_FIRST: [u8; 5] = [
    0x00,
    commands::JOB,
    commands::PAIRED_JOB,
    commands::JOB,
    commands::JOB_LEAF,
];

// Job 2 needs a fact that it needs absent.
const MEETING: [u64; 5] = [0x02, 0x00, 0x01, 0x00, 0x00];

// Rows that cannot be written are told before anything is judged, the first of them first. What is refused, or finds the slice one byte too short,
// writes nothing.
fn show_mixed_refused(rt: &impl Print, out: &mut [u8]) -> io::Result<()> {
    show_mixing(rt, 5, MIXED, DROPPED, out)?;
    show_mixing(rt, 5, NO_JOB, ABSENT, out)?;
    show_mixing(rt, 0, NO_JOB_FIRST, DROPPED, out)?;
    show_mixing(rt, 5, MIXED, MEETING, out)?;
    show_mixing(rt, 1, MIXED, ABSENT, out)?;
    let mut short = [0u8; 170];
    show_mixing(rt, 5, MIXED, ABSENT, &mut short)?;
    show(rt, out)
}

// Document 01's trailer.
fn show_trailer(rt: &impl Print, out: &mut [u8]) -> io::Result<()> {
    show_facts(rt, 5, out)?;
    show_damaged(rt, out)?;
    show_many(rt, 0, commands::JOB, commands::JOB_SIZE)?;
    show_many(rt, 1, commands::JOB, commands::JOB_SIZE)?;
    show_many(rt, 128, commands::JOB, commands::JOB_SIZE)?;
    show_many(rt, 129, commands::JOB, commands::JOB_SIZE)?;
    show_replaced(rt, out)?;
    show_refused(rt, out)?;
    show_misfits(rt, out)?;
    show_longest(rt, out)?;
    show_longer(rt, out)?;
    show_longer_read(rt, out)
}

// The table of both kinds of jobs.
fn show_mixed(rt: &impl Print, out: &mut [u8]) -> io::Result<()> {
    show_mixing(rt, 5, MIXED, ABSENT, out)?;
    show_damaged(rt, out)?;
    show_mixed_replaced(rt, out)?;
    show_mixed_refused(rt, out)?;
    show_contradiction(rt, out)?;
    show_many(rt, 128, commands::PAIRED_JOB, commands::PAIRED_JOB_SIZE)?;
    show_many(rt, 129, commands::PAIRED_JOB, commands::PAIRED_JOB_SIZE)
}

fn main(rt: HostRuntime) -> io::Result<()> {
    let mut trailer = [0u8; 147];
    show_trailer(&rt, &mut trailer)?;
    let mut mixed = [0u8; 171];
    show_mixed(&rt, &mut mixed)
}
