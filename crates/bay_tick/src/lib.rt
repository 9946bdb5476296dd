// The C interface to the tick: bay_tick of include/bay.h, over the proved function of the same meaning. It takes every input.
#![tactic(auto)]

ghost use Rattle.std.specs.Prelude.{◌≡◌};
ghost use Rattle.bay_words.specs.Words.{words};
ghost use Rattle.bay_tick.specs.TickWords.{status_words, TickAnswered};
ghost use Rattle.refusal.specs.Checked.{answer_of};

use reading::Reading;
use refusal::Refusal;
use tree::Status;

// What the words of include/bay.h are called there.
const BAY_SUCCESS: u64 = 0;

const BAY_FAILURE: u64 = 1;

const BAY_RUNNING: u64 = 2;

const BAY_UNSETTLED: u64 = 3;

const BAY_WAITING: u64 = 4;

fn ticked_words(ticked: Result<Status, Refusal>) -> [u64; 3]
    ensures { result ≡ words 3 status_words (answer_of ticked) }
{
    match ticked {
        Ok(Status::Success) => [0, BAY_SUCCESS, 0],
        Ok(Status::Failure) => [0, BAY_FAILURE, 0],
        Ok(Status::Running(job)) => [0, BAY_RUNNING, job as u64],
        Ok(Status::Unsettled(mask)) => [0, BAY_UNSETTLED, mask],
        Ok(Status::Waiting) => [0, BAY_WAITING, 0],
        Err(x) => [bay_words::number_of(x), x.place as u64, 0],
    }
}

#[unsafe(no_mangle)]
pub extern "C" fn bay_tick(
    table: &[u8],
    tree: &[u8],
    held: u64,
    unread: u64,
    answer: &mut [u64; 3],
) -> u64
    ensures { TickAnswered table.now tree.now (record { held = held; unread = unread }) answer.new result }
{
    let ticked = ticked_words(tick::tick(table, tree, Reading { held, unread }));
    *answer = ticked;
    ticked[0]
}
