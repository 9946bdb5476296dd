// The job card of a vehicle: its masks, its counts, what one more report makes of them, and the lateness that is read off it
// (document 01, "Job card"). The calls on it, which begin with a table's checks, are in `card_calls`.
#![tactic(auto)]

ghost use Rattle.std.specs.Prelude.{◌≡◌, false, pos, ◌-ℤ◌};
ghost use Rattle.card.specs.Card.{masks_of, new_card, with_masks, with_report, exhausted, booked, lateness_of, Updated};

use job::Job;
use reading::Reading;
use refusal::{Reason, Refusal};

// The most reports that a card counts.
pub const MAX_REPORTS: u16 = 65535;

// The most that one report adds to the taken seconds.
pub const MAX_TAKEN: u32 = 65535;

// The most that one report adds to the planned seconds: the longest job that a table may list.
pub const MAX_LISTED: u32 = job::MAX_SECONDS as u32;

#[derive(Clone, Copy)]
pub struct Card {
    pub held: u64,
    pub unread: u64,
    pub reports: u16,
    pub taken: u32,
    pub planned: u32,
}

// A card after a call, and the call's answer.
#[derive(Clone, Copy)]
pub struct CardStep {
    pub card: Card,
    pub answer: Result<(), Refusal>,
}

pub fn masks_of(card: Card) -> Reading
    ensures { result ≡ masks_of card }
{
    Reading {
        held: card.held,
        unread: card.unread,
    }
}

pub fn new_card(reading: Reading) -> Card
    ensures { result ≡ new_card reading }
{
    Card {
        held: reading.held,
        unread: reading.unread,
        reports: 0,
        taken: 0,
        planned: 0,
    }
}

pub fn with_masks(card: Card, reading: Reading) -> Card
    ensures { result ≡ with_masks reading card }
{
    Card {
        held: reading.held,
        unread: reading.unread,
        ..card
    }
}

pub fn accept(card: Card) -> CardStep
    ensures { result ≡ record { card = card; answer = Ok tt } }
{
    CardStep {
        card,
        answer: Ok(()),
    }
}

// A refused call leaves the card as it was.
pub fn refuse(card: Card, refusal: Refusal) -> CardStep
    ensures { result ≡ record { card = card; answer = Err refusal } }
{
    let answer = Err(refusal);
    CardStep { card, answer }
}

// Can the card take no further report?
#[tactic(auto, unfolding(crate::specs::Card::exhausted))]
fn is_exhausted(card: Card) -> bool
    ensures { result ≡ exhausted card }
{
    let reports = card.reports as u32;
    card.reports == MAX_REPORTS
        || card.taken > MAX_TAKEN * reports
        || card.planned > MAX_LISTED * reports
}

// The card with one more report. Where it is not exhausted, the count and both sums have room for it.
#[tactic(auto, using(crate::specs::CardLaws::room), unfolding(crate::specs::Card::with_report))]
fn with_report(card: Card, job: Job, taken: u16) -> Card
    requires { exhausted card ≡ false }
    ensures { result ≡ with_report job taken card }
{
    let masks = conditions::finish(job::action_of(job), masks_of(card));
    Card {
        held: masks.held,
        unread: masks.unread,
        reports: card.reports + 1,
        taken: card.taken + taken as u32,
        planned: card.planned + job.seconds as u32,
    }
}

// A report of a job of the table, on a card whose masks are sound.
#[tactic(auto, using(crate::specs::CardLaws::updated_refused, crate::specs::CardLaws::updated_accepted), unfolding(crate::specs::Card::booked))]
pub fn book(card: Card, job: Job, taken: u16) -> CardStep
    ensures { Updated (booked job taken card) card result.card result.answer }
{
    if !conditions::is_applicable(job::action_of(job), masks_of(card)) {
        return refuse(card, Reason::NeedNotHeld.at(0));
    }
    if is_exhausted(card) {
        return refuse(card, Reason::CardExhausted.at(0));
    }
    accept(with_report(card, job, taken))
}

fn difference(taken: u32, planned: u32) -> i64
    ensures { result ≡ pos taken -ℤ pos planned }
{
    taken as i64 - planned as i64
}

// Document 01's lateness, in minutes: below zero where the jobs took less than was planned.
#[tactic(auto, unfolding(crate::specs::Card::lateness_of))]
pub fn lateness(card: Card) -> i64
    ensures { result ≡ lateness_of card }
{
    minutes::signed_minutes(difference(card.taken, card.planned))
}
