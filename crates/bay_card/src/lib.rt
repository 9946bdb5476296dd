// The C interface to the job card: the functions of include/bay.h over a card that is lent in its parts, each over the proved function of the
// same meaning. Every function takes every input.
#![tactic(auto)]

ghost use Rattle.std.specs.Prelude.{◌≡◌, ℕ};
ghost use Rattle.card.specs.Card.{lateness_of};
ghost use Rattle.card_calls.specs.Calls.{opened, outside_read};
ghost use Rattle.bay_words.specs.Words.{words};
ghost use Rattle.bay_card.specs.CardWords.{done_words, card_of, reported_in, CardAnswered, Stored};
ghost use Rattle.refusal.specs.Checked.{answer_of};

use card::{Card, CardStep};
use card_calls::JobReport;
use reading::Reading;
use refusal::Refusal;

// As in include/bay.h.
const BAY_SECONDS_OUT_OF_RANGE: u64 = 102;

const MAX_TAKEN: usize = 65_535;

fn done_words(outcome: Result<(), Refusal>) -> [u64; 2]
    ensures { result ≡ words 2 done_words (answer_of outcome) }
{
    match outcome {
        Ok(()) => [0, 0],
        Err(x) => [bay_words::number_of(x), x.place as u64],
    }
}

// The card of a step that was done, into its lent parts, and the step's answer. A refused step leaves the parts untouched.
fn store(
    step: CardStep,
    held: &mut u64,
    unread: &mut u64,
    reports: &mut u16,
    taken: &mut u32,
    planned: &mut u32,
    answer: &mut [u64; 2],
) -> u64
    ensures { Stored step
        (card_of held.old unread.old reports.old taken.old planned.old)
        (card_of held.new unread.new reports.new taken.new planned.new)
        answer.new result }
{
    let outcome = step.answer;
    let words = done_words(outcome);
    *answer = words;
    let first = words[0];
    match outcome {
        Err(_) => first,
        Ok(()) => {
            let next = step.card;
            *held = next.held;
            *unread = next.unread;
            *reports = next.reports;
            *taken = next.taken;
            *planned = next.planned;
            first
        }
    }
}

// The lent parts are not read: they may hold nothing yet.
#[unsafe(no_mangle)]
pub extern "C" fn bay_open(
    table: &[u8],
    held: u64,
    unread: u64,
    card_held: &mut u64,
    card_unread: &mut u64,
    card_reports: &mut u16,
    card_taken: &mut u32,
    card_planned: &mut u32,
    answer: &mut [u64; 2],
) -> u64
    ensures { CardAnswered (opened table.now (record { held = held; unread = unread }))
        (card_of card_held.old card_unread.old card_reports.old card_taken.old card_planned.old)
        (card_of card_held.new card_unread.new card_reports.new card_taken.new card_planned.new)
        answer.new result }
{
    let blank = Card {
        held: 0,
        unread: 0,
        reports: 0,
        taken: 0,
        planned: 0,
    };
    let opened = card_calls::opened(blank, table, Reading { held, unread });
    store(
        opened,
        card_held,
        card_unread,
        card_reports,
        card_taken,
        card_planned,
        answer,
    )
}

// The counts of the card do not matter: the contract holds of every card with the lent masks.
#[unsafe(no_mangle)]
pub extern "C" fn bay_read_outside(
    table: &[u8],
    held: u64,
    unread: u64,
    card_held: &mut u64,
    card_unread: &mut u64,
    answer: &mut [u64; 2],
) -> u64
    ensures { (reports taken planned : ℕ) → CardAnswered
        (outside_read table.now (record { held = held; unread = unread }) (card_of card_held.old card_unread.old reports taken planned))
        (card_of card_held.old card_unread.old reports taken planned)
        (card_of card_held.new card_unread.new reports taken planned)
        answer.new result }
{
    let mut reports: u16 = 0;
    let mut taken: u32 = 0;
    let mut planned: u32 = 0;
    let before = Card {
        held: *card_held,
        unread: *card_unread,
        reports,
        taken,
        planned,
    };
    let read = card_calls::outside_read(before, table, Reading { held, unread });
    store(
        read,
        card_held,
        card_unread,
        &mut reports,
        &mut taken,
        &mut planned,
        answer,
    )
}

// The seconds are a machine word: a number that is wider than a report's is told, and not cut to another one.
#[unsafe(no_mangle)]
pub extern "C" fn bay_report(
    table: &[u8],
    job: usize,
    seconds: usize,
    card_held: &mut u64,
    card_unread: &mut u64,
    card_reports: &mut u16,
    card_taken: &mut u32,
    card_planned: &mut u32,
    answer: &mut [u64; 2],
) -> u64
    ensures { CardAnswered
        (reported_in table.now job seconds
        (card_of card_held.old card_unread.old card_reports.old card_taken.old card_planned.old))
        (card_of card_held.old card_unread.old card_reports.old card_taken.old card_planned.old)
        (card_of card_held.new card_unread.new card_reports.new card_taken.new card_planned.new)
        answer.new result }
{
    if seconds > MAX_TAKEN {
        *answer = [BAY_SECONDS_OUT_OF_RANGE, 0];
        return BAY_SECONDS_OUT_OF_RANGE;
    }
    let taken = seconds as u16;
    let before = Card {
        held: *card_held,
        unread: *card_unread,
        reports: *card_reports,
        taken: *card_taken,
        planned: *card_planned,
    };
    let reported = card_calls::reported(before, table, JobReport { job, taken });
    store(
        reported,
        card_held,
        card_unread,
        card_reports,
        card_taken,
        card_planned,
        answer,
    )
}

// Of every card with these sums, which are lent like the card's other parts, so that no wider number is cut to one.
#[unsafe(no_mangle)]
pub extern "C" fn bay_lateness(card_taken: &u32, card_planned: &u32) -> i64
    ensures { (held unread reports : ℕ) → result ≡ lateness_of (card_of held unread reports card_taken.now card_planned.now) }
{
    let taken = *card_taken;
    let planned = *card_planned;
    card::lateness(Card {
        held: 0,
        unread: 0,
        reports: 0,
        taken,
        planned,
    })
}
