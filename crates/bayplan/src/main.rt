// The program of document 01, "A trailer on the hitch": plans from the table in `bay.tab` and the start in `start.bay`, and
// prints the plan or the stop.
#![tactic(auto)]

use std::io;
use std::io::Write;

// FACTS and a JOB more than a table may have, all of the wider kind: no stop of a table lies further on, so the rest of a longer file is not read.
const TABLE_BYTES: usize = commands::FACTS_SIZE + commands::PAIRED_JOB_SIZE * (table::MAX_JOBS + 1);

// A byte more than a start has tells a longer file.
const START_BYTES: usize = program_text::START_SIZE + 1;

const TEXT_BYTES: usize = plan_text::ENTRY_LINE * program_text::ENTRIES + plan_text::OTHER_LINES;

fn main(rt: HostRuntime) -> io::Result<()> {
    let mut table = [0u8; TABLE_BYTES];
    let mut start = [0u8; START_BYTES];
    let mut text = [0u8; TEXT_BYTES];
    let n = file_reading::read_file(&rt, b"bay.tab", &mut table);
    let m = file_reading::read_file(&rt, b"start.bay", &mut start);
    let count = program_text::write_program_text(&table, n, &start, m, &mut text);
    io::writer(&rt).write_all(&text[..count])
}
