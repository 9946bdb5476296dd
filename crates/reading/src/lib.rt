// A reading of a vehicle: the facts that were read and hold, and those that were not read (document 01, "Commands"), and its stops 8 and 9.
#![tactic(auto)]

ghost use Rattle.std.specs.Prelude.{◌≡◌};
ghost use Rattle.reading.specs.Reading.{sound, checked_at, checked_start};
ghost use Rattle.refusal.specs.Checked.{answer_of};

use refusal::{Reason, Refusal};

// A fact in neither mask was read and is absent.
#[derive(Clone, Copy)]
pub struct Reading {
    pub held: u64,
    pub unread: u64,
}

// Has the reading only facts below `facts`, and none both held and unread?
fn is_sound(facts: u8, reading: Reading) -> bool
    ensures { result ≡ sound facts reading }
{
    if !masks::is_within(facts, reading.held) {
        return false;
    }
    if !masks::is_within(facts, reading.unread) {
        return false;
    }
    !masks::share_fact(reading.held, reading.unread)
}

// A reading under a table with so many facts: any reading; what is refused has the caller's place.
pub fn check_reading(facts: u8, place: usize, reading: Reading) -> Result<Reading, Refusal>
    ensures { answer_of result ≡ checked_at facts place reading }
{
    if !is_sound(facts, reading) {
        return Err(Reason::BadReading.at(place));
    }
    Ok(reading)
}

// A start for planning, under a table with so many facts: any reading.
#[tactic(auto, using(std::proofs::lemmas::Grind::common_steps, refusal::specs::CheckedLaws::then_refused, refusal::specs::CheckedLaws::then_next), unfolding(crate::specs::Reading::checked_start))]
pub fn check_start(facts: u8, start: Reading) -> Result<Reading, Refusal>
    ensures { answer_of result ≡ checked_start facts start }
{
    let start = check_reading(facts, 0, start)?;
    if start.unread != 0 {
        return Err(Reason::StartUnread.at(0));
    }
    Ok(start)
}
