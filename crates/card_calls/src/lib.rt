// The calls on a vehicle's job card under a table's bytes: opened with a reading, read again from outside, updated by the report of a
// finished job, and ticked (document 01, "Job card"). Each takes the card by value and returns the next one; `card_lent` has them on a
// card that is lent.
#![tactic(auto)]

ghost use Rattle.std.specs.Prelude.{◌≡◌};
ghost use Rattle.table.specs.Read.{headed};
ghost use Rattle.tick.specs.Answers.{Answers};
ghost use Rattle.card.specs.Card.{masks_of, Updated};
ghost use Rattle.card_calls.specs.Calls.{table_for, opened, outside_read, reported};
ghost use Rattle.refusal.specs.Checked.{answer_of};

use card::{Card, CardStep};
use reading::Reading;
use refusal::Refusal;
use table::Header;
use tree::Status;

// A report of a finished job: its number, and the seconds that it took.
#[derive(Clone, Copy)]
pub struct JobReport {
    pub job: usize,
    pub taken: u16,
}

// A table, and a reading under it, which is refused with the place.
fn table_for(table: &[u8], place: usize, reading: Reading) -> Result<Header, Refusal>
    ensures { answer_of result ≡ headed (table_for table.now place reading) }
{
    let header = table::read_table(table)?;
    reading::check_reading(header.facts, place, reading)?;
    Ok(header)
}

// A new card, whatever the old one had.
pub fn opened(card: Card, table: &[u8], reading: Reading) -> CardStep
    ensures { Updated (opened table.now reading) card result.card result.answer }
{
    match table_for(table, 0, reading) {
        Err(x) => card::refuse(card, x),
        Ok(_) => card::accept(card::new_card(reading)),
    }
}

// An outside reading. Neither the card's old masks nor its counts are judged.
pub fn outside_read(card: Card, table: &[u8], reading: Reading) -> CardStep
    ensures { Updated (outside_read table.now reading card) card result.card result.answer }
{
    let read = table_for(table, 0, reading);
    match read {
        Err(x) => card::refuse(card, x),
        Ok(_) => card::accept(card::with_masks(card, reading)),
    }
}

// One more report: the job by its number, then what booking it says.
pub fn reported(card: Card, table: &[u8], report: JobReport) -> CardStep
    ensures { Updated (reported table.now report card) card result.card result.answer }
{
    let masks = card::masks_of(card);
    match table_for(table, 0, masks) {
        Err(x) => card::refuse(card, x),
        Ok(header) => match table::named_job(table, header, report.job, 0) {
            Err(x) => card::refuse(card, x),
            Ok(job) => card::book(card, job, report.taken),
        },
    }
}

// A tick on the card's masks: they are judged by 8, and the counts not at all.
pub fn tick_card(card: Card, table: &[u8], tree: &[u8]) -> Result<Status, Refusal>
    ensures { Answers table.now tree.now (masks_of card) result }
{
    let masks = card::masks_of(card);
    tick::tick(table, tree, masks)
}
