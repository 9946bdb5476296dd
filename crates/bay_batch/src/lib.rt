// The C interface to the tick of a row of vehicles: bay_tick_all of include/bay.h, over the proved function of the same meaning. It takes every
// input.
#![tactic(auto)]

ghost use Rattle.std.specs.Prelude.{◌≡◌};
ghost use Rattle.batch_walk.specs.Batch.{answer_rows};
ghost use Rattle.bay_words.specs.Words.{words};
ghost use Rattle.bay_batch.specs.BatchWords.{read_words, BatchAnswered};
ghost use Rattle.refusal.specs.Checked.{answer_of};

use batch_walk::Readings;
use flat::Entries;
use refusal::Refusal;

fn batch_words(ticked: Result<usize, Refusal>) -> [u64; 2]
    ensures { result ≡ words 2 read_words (answer_of ticked) }
{
    match ticked {
        Ok(read) => [0, read as u64],
        Err(x) => [bay_words::number_of(x), x.place as u64],
    }
}

#[unsafe(no_mangle)]
pub extern "C" fn bay_tick_all(
    table: &[u8],
    conditions: &[u64],
    absences: &[u64],
    jobs: &[u8],
    held: &[u64],
    unread: &[u64],
    statuses: &mut [u8],
    values: &mut [u64],
    answer: &mut [u64; 2],
) -> u64
    ensures { BatchAnswered table.now conditions.now absences.now jobs.now held.now
        unread.now (answer_rows statuses.old values.old) (answer_rows statuses.new values.new)
        answer.new result }
{
    let entries = Entries {
        conditions,
        absences,
        actions: jobs,
    };
    let readings = Readings { held, unread };
    let ticked = batch_words(batch_tick::tick_all(table, entries, readings, statuses, values));
    *answer = ticked;
    ticked[0]
}
