// Runs a vehicle's day on one job card, with every refusal, and prints the card and the answer after each call. What is printed is compared
// with the file `stdout`, which an account of the papers made that shares no code with ours. The card is lent to each call of `card_lent`.
#![tactic(auto)]

ghost use Rattle.std.specs.Prelude.{◌≡◌, nat_abs};
ghost use Rattle.card.specs.Card.{Updated};
ghost use Rattle.card_calls.specs.Calls.{opened, outside_read, reported};

use card::{Card, CardStep};
use card_calls::JobReport;
use reading::Reading;
use refusal::Refusal;
use std::io;
use tree::Status;

// ---- the calls on a card that is lent: each lends its own

fn open(mut card: Card, table: &[u8], reading: Reading) -> CardStep
    ensures { Updated (opened table.now reading) card result.card result.answer }
{
    let answer = card_lent::open(&mut card, table, reading);
    CardStep { card, answer }
}

fn read_outside(mut card: Card, table: &[u8], reading: Reading) -> CardStep
    ensures { Updated (outside_read table.now reading card) card result.card result.answer }
{
    let answer = card_lent::read_outside(&mut card, table, reading);
    CardStep { card, answer }
}

fn report(mut card: Card, table: &[u8], report: JobReport) -> CardStep
    ensures { Updated (reported table.now report card) card result.card result.answer }
{
    let answer = card_lent::report(&mut card, table, report);
    CardStep { card, answer }
}

// ---- what is printed

fn number(rt: &impl Print, n: u64) -> io::Result<()> {
    print!(rt; " {n}")
}

fn mask(rt: &impl Print, m: u64) -> io::Result<()> {
    print!(rt; " {m:02x}")
}

// A number without its sign.
fn magnitude(n: i64) -> u64
    ensures { result ≡ nat_abs n }
{
    n.unsigned_abs()
}

// The card: its masks, its reports, its taken and planned seconds, and its lateness.
fn show_card(rt: &impl Print, card: Card) -> io::Result<()> {
    let late = card::lateness(card);
    print!(rt; " card")?;
    mask(rt, card.held)?;
    mask(rt, card.unread)?;
    number(rt, card.reports as u64)?;
    number(rt, card.taken as u64)?;
    number(rt, card.planned as u64)?;
    if late < 0 {
        print!(rt; " minus")?;
    }
    number(rt, magnitude(late))?;
    print!(rt; "\n")
}

fn show_refusal(rt: &impl Print, x: Refusal) -> io::Result<()> {
    print!(rt; " refused")?;
    number(rt, u8::from(x.reason) as u64)?;
    number(rt, x.place as u64)
}

// The answer of a call, and the card after it, which goes on.
fn show(rt: &impl Print, step: CardStep) -> io::Result<Card> {
    let card = step.card;
    let answer = step.answer;
    match answer {
        Ok(()) => {
            print!(rt; " done")?;
        }
        Err(x) => {
            show_refusal(rt, x)?;
        }
    }
    show_card(rt, card)?;
    Ok(card)
}

fn show_ticked(rt: &impl Print, ticked: Result<Status, Refusal>) -> io::Result<()> {
    match ticked {
        Ok(Status::Success) => {
            print!(rt; " success")?;
        }
        Ok(Status::Failure) => {
            print!(rt; " failure")?;
        }
        Ok(Status::Running(job)) => {
            print!(rt; " running")?;
            number(rt, job as u64)?;
        }
        Ok(Status::Unsettled(facts)) => {
            print!(rt; " unsettled")?;
            mask(rt, facts)?;
        }
        Ok(Status::Waiting) => {
            print!(rt; " waiting")?;
        }
        Err(x) => {
            show_refusal(rt, x)?;
        }
    }
    print!(rt; "\n")
}

// ---- the calls under a table; each goes on with the card that the one before left

fn opens_under(
    rt: &impl Print,
    card: Card,
    table: &[u8],
    held: u64,
    unread: u64,
) -> io::Result<Card> {
    print!(rt; "open")?;
    mask(rt, held)?;
    mask(rt, unread)?;
    show(rt, open(card, table, Reading { held, unread }))
}

fn reads_under(
    rt: &impl Print,
    card: Card,
    table: &[u8],
    held: u64,
    unread: u64,
) -> io::Result<Card> {
    print!(rt; "read")?;
    mask(rt, held)?;
    mask(rt, unread)?;
    show(rt, read_outside(card, table, Reading { held, unread }))
}

fn reports_under(
    rt: &impl Print,
    card: Card,
    table: &[u8],
    job: usize,
    taken: u16,
) -> io::Result<Card> {
    print!(rt; "report")?;
    number(rt, job as u64)?;
    number(rt, taken as u64)?;
    show(rt, report(card, table, JobReport { job, taken }))
}

// On the tree of document 01's first marked case: FALLBACK 8; the conditions 0x10, 0x0c, 0x09, 0x06, 0x0a, 0x03, 0x05 and 0x02, each after the
// first with its job 4, 2, 3, 1, 3, 0 and 3; END.
fn ticks_under(rt: &impl Print, card: Card, table: &[u8]) -> io::Result<()> {
    let tree =
        b"\x41\x08\x00\x43\x10\x00\x00\x00\x00\x00\x00\x00\x42\x02\x00\x43\x0c\x00\x00\x00\x00\x00\x00\x00\x44\x04\x42\x02\x00\x43\x09\x00\x00\x00\x00\x00\x00\x00\x44\x02\x42\x02\x00\x43\x06\x00\x00\x00\x00\x00\x00\x00\x44\x03\x42\x02\x00\x43\x0a\x00\x00\x00\x00\x00\x00\x00\x44\x01\x42\x02\x00\x43\x03\x00\x00\x00\x00\x00\x00\x00\x44\x03\x42\x02\x00\x43\x05\x00\x00\x00\x00\x00\x00\x00\x44\x00\x42\x02\x00\x43\x02\x00\x00\x00\x00\x00\x00\x00\x44\x03\x4f";
    print!(rt; "tick")?;
    show_ticked(rt, card_calls::tick_card(card, table, tree))
}

// ---- the same under document 01's trailer

// FACTS 5; the jobs couple, uncouple, measure unloaded, measure loaded and seal; GOAL 0x10; END.
fn trailer() -> [u8; 147] {
    *b"\x10\x05\x20\x01\x00\x00\x00\x00\x00\x00\x00\x02\x00\x00\x00\x00\x00\x00\x00\x01\x00\x00\x00\x00\x00\x00\x00\x2c\x01\x20\x02\x00\x00\x00\x00\x00\x00\x00\x01\x00\x00\x00\x00\x00\x00\x00\x02\x00\x00\x00\x00\x00\x00\x00\xf0\x00\x20\x01\x00\x00\x00\x00\x00\x00\x00\x04\x00\x00\x00\x00\x00\x00\x00\x00\x00\x00\x00\x00\x00\x00\x00\x58\x02\x20\x02\x00\x00\x00\x00\x00\x00\x00\x08\x00\x00\x00\x00\x00\x00\x00\x00\x00\x00\x00\x00\x00\x00\x00\x58\x02\x20\x0c\x00\x00\x00\x00\x00\x00\x00\x10\x00\x00\x00\x00\x00\x00\x00\x00\x00\x00\x00\x00\x00\x00\x00\x96\x00\x30\x10\x00\x00\x00\x00\x00\x00\x00\x3f"
}

fn opens(rt: &impl Print, card: Card, held: u64, unread: u64) -> io::Result<Card> {
    opens_under(rt, card, &trailer(), held, unread)
}

fn reads(rt: &impl Print, card: Card, held: u64, unread: u64) -> io::Result<Card> {
    reads_under(rt, card, &trailer(), held, unread)
}

fn reports(rt: &impl Print, card: Card, job: usize, taken: u16) -> io::Result<Card> {
    reports_under(rt, card, &trailer(), job, taken)
}

fn ticks(rt: &impl Print, card: Card) -> io::Result<()> {
    ticks_under(rt, card, &trailer())
}

// The same card, with counts as other days leave them.
fn counts(rt: &impl Print, card: Card, reports: u16, taken: u32, planned: u32) -> io::Result<Card> {
    let next = Card {
        held: card.held,
        unread: card.unread,
        reports,
        taken,
        planned,
    };
    show_card(rt, next)?;
    Ok(next)
}

// ---- the day

// Openings that are refused: by the table, before the reading; by a held or an unread fact at or above F; by a shared fact. Then one that is not.
fn morning(rt: &impl Print, first: Card) -> io::Result<Card> {
    let mut card = opens_under(rt, first, b"", 0x20, 0x00)?;
    card = opens(rt, card, 0x20, 0x00)?;
    card = opens(rt, card, 0x02, 0x20)?;
    card = opens(rt, card, 0x02, 0x0a)?;
    opens(rt, card, 0x02, 0x08)
}

// Reports of jobs that the table does not have, and of jobs with a need that is absent or unread.
fn wrong_reports(rt: &impl Print, first: Card) -> io::Result<Card> {
    let mut card = reports_under(rt, first, b"", 5, 60)?;
    card = reports(rt, card, 5, 60)?;
    card = reports(rt, card, 256, 60)?;
    card = reports(rt, card, 18446744073709551615, 60)?;
    card = reports(rt, card, 2, 60)?;
    card = reads(rt, card, 0x06, 0x08)?;
    ticks(rt, card)?;
    reports(rt, card, 4, 60)
}

fn wrong_readings(rt: &impl Print, first: Card) -> io::Result<Card> {
    let mut card = reads_under(rt, first, b"\x10\x41", 0x40, 0x00)?;
    card = reads(rt, card, 0x40, 0x00)?;
    card = reads(rt, card, 0x02, 0x40)?;
    card = reads(rt, card, 0x02, 0x02)?;
    reads(rt, card, 0x02, 0x08)
}

// The way of the trailer, done as the ticks say, late and early.
fn work(rt: &impl Print, first: Card) -> io::Result<Card> {
    ticks(rt, first)?;
    let mut card = reports(rt, first, 3, 630)?;
    ticks(rt, card)?;
    card = reports(rt, card, 1, 331)?;
    ticks(rt, card)?;
    card = reports(rt, card, 2, 1)?;
    ticks(rt, card)?;
    card = reports(rt, card, 4, 65535)?;
    ticks(rt, card)?;
    Ok(card)
}

// Under a table of four facts and no job the card's masks are refused, until an outside reading replaces them.
fn elsewhere(rt: &impl Print, first: Card) -> io::Result<Card> {
    let four = b"\x10\x04\x30\x08\x00\x00\x00\x00\x00\x00\x00\x3f";
    ticks_under(rt, first, four)?;
    let mut card = reports_under(rt, first, four, 0, 60)?;
    card = reads_under(rt, card, four, 0x0d, 0x02)?;
    ticks_under(rt, card, four)?;
    reports_under(rt, card, four, 0, 60)
}

// 18 by the count, after 17 and after the last report that fits; a reading is still taken.
fn many_reports(rt: &impl Print, first: Card) -> io::Result<Card> {
    let mut card = reads(rt, first, 0x01, 0x00)?;
    card = counts(rt, card, 65534, 4294770690, 353883600)?;
    card = reports(rt, card, 0, 65535)?;
    card = reports(rt, card, 1, 1)?;
    card = reports(rt, card, 0, 1)?;
    reads(rt, card, 0x02, 0x01)
}

// 18 by each sum, one past its limit and at it; the lateness at its ends; and a new card.
fn large_sums(rt: &impl Print, first: Card) -> io::Result<Card> {
    let mut card = counts(rt, first, 1, 65536, 5400)?;
    card = reports(rt, card, 3, 1)?;
    card = counts(rt, card, 1, 65535, 5401)?;
    card = reports(rt, card, 3, 1)?;
    card = counts(rt, card, 1, 65535, 5400)?;
    card = reports(rt, card, 3, 1)?;
    card = counts(rt, card, 0, 0, 4294967295)?;
    card = reports(rt, card, 3, 1)?;
    card = counts(rt, card, 0, 4294967295, 0)?;
    opens(rt, card, 0x01, 0x00)
}

fn main(rt: HostRuntime) -> io::Result<()> {
    let mut card = Card {
        held: 0x0f,
        unread: 0x81,
        reports: 7,
        taken: 100,
        planned: 251,
    };
    show_card(&rt, card)?;
    card = morning(&rt, card)?;
    card = wrong_reports(&rt, card)?;
    card = wrong_readings(&rt, card)?;
    card = work(&rt, card)?;
    card = elsewhere(&rt, card)?;
    card = many_reports(&rt, card)?;
    large_sums(&rt, card)?;
    Ok(())
}
