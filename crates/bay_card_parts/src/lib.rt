// A job card in the parts in which the C interface is lent it: what a step on the card leaves in them.
#![tactic(auto)]

ghost use Rattle.std.specs.Prelude.{◌≡◌};
ghost use Rattle.bay_words.specs.Words.{words};
ghost use Rattle.bay_card_parts.specs.CardParts.{done_words, card_of, Stored};
ghost use Rattle.refusal.specs.Checked.{answer_of};

use card::CardStep;
use refusal::Refusal;

fn done_words(outcome: Result<(), Refusal>) -> [u64; 2]
    ensures { result ≡ words 2 done_words (answer_of outcome) }
{
    match outcome {
        Ok(()) => [0, 0],
        Err(x) => [bay_words::number_of(x), x.place as u64],
    }
}

// The card of a step that was done, into its lent parts, and the step's answer. A refused step leaves the parts untouched.
pub fn store(
    step: CardStep,
    held: &mut u64,
    unread: &mut u64,
    reports: &mut u16,
    taken: &mut u32,
    planned: &mut u32,
    answer: &mut [u64; 2],
) -> u64
    ensures { Stored step
        (card_of held.old unread.old reports.old taken.old planned.old)
        (card_of held.new unread.new reports.new taken.new planned.new)
        answer.new result }
{
    let outcome = step.answer;
    let words = done_words(outcome);
    *answer = words;
    let first = words[0];
    match outcome {
        Err(_) => first,
        Ok(()) => {
            let next = step.card;
            *held = next.held;
            *unread = next.unread;
            *reports = next.reports;
            *taken = next.taken;
            *planned = next.planned;
            first
        }
    }
}
