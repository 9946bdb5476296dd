// The calls on a job card that is lent: "every report updates the one job card" (document 01, "Job card"). Each reads the lent card whole,
// makes the call of `card_calls` on it, and stores the card of that.
#![tactic(auto)]

ghost use Rattle.card.specs.Card.{Updated};
ghost use Rattle.card_calls.specs.Calls.{opened, outside_read, reported};

use card::Card;
use card_calls::JobReport;
use reading::Reading;
use refusal::Refusal;

pub fn open(card: &mut Card, table: &[u8], reading: Reading) -> Result<(), Refusal>
    ensures { Updated (opened table.now reading) card.old card.new result }
{
    let before = *card;
    let opened = card_calls::opened(before, table, reading);
    let fresh = opened.card;
    *card = fresh;
    opened.answer
}

pub fn read_outside(card: &mut Card, table: &[u8], reading: Reading) -> Result<(), Refusal>
    ensures { Updated (outside_read table.now reading card.old) card.old card.new result }
{
    let before = *card;
    let read = card_calls::outside_read(before, table, reading);
    let seen = read.card;
    *card = seen;
    read.answer
}

pub fn report(card: &mut Card, table: &[u8], report: JobReport) -> Result<(), Refusal>
    ensures { Updated (reported table.now report card.old) card.old card.new result }
{
    let before = *card;
    let reported = card_calls::reported(before, table, report);
    let booked = reported.card;
    *card = booked;
    reported.answer
}
