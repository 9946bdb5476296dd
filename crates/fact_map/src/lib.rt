// The facts of one table as facts of another, by a map with a byte for each old fact: its new number, or 255 where it is dropped (document 02, W14).
// Stop 27, and what a reading under the old table is under the new one.
#![tactic(auto)]

ghost use Rattle.std.specs.Prelude.{◌≡◌, ◌≤◌};
ghost use Rattle.fact_map.specs.FactMap.{mapped_reading};
ghost use Rattle.fact_map.specs.Carry.{only, fits, first_sent, carried, first_facts, carried_sets, checked_map};
ghost use Rattle.refusal.specs.Checked.{answer_of};

use reading::Reading;
use refusal::{Reason, Refusal};

// The byte of a fact that is dropped.
pub const DROPPED: u8 = 255;

// The set of one fact. A mask has none at or above 64.
fn only(fact: u8) -> u64
    ensures { result ≡ only fact }
{
    if fact >= 64 {
        return 0;
    }
    1 << fact
}

// May a fact be sent to `to`, where others are sent to the facts of `taken`?
fn is_free(new: u8, taken: u64, to: u8) -> bool
    ensures { result ≡ fits new taken to }
{
    if masks::share_fact(taken, only(to)) {
        return false;
    }
    if to == DROPPED {
        return true;
    }
    to < new
}

// The facts that others are sent to by a map between tables of so many facts. It is judged from its last byte down, so that those behind a byte are known
// when it is judged.
fn check_map(old: u8, new: u8, map: &[u8]) -> Result<u64, Refusal>
    requires { new ≤ 64 }
    ensures { answer_of result ≡ checked_map old new map.now }
{
    if map.len() != old as usize {
        return Err(Reason::BadMap.at(0));
    }
    let mut taken: u64 = 0;
    for i in (0..map.len()).rev() {
        let to = map[i];
        if !is_free(new, taken, to) {
            return Err(Reason::BadMap.at(0));
        }
        taken = masks::join(taken, only(to));
    }
    Ok(taken)
}

// Where the first fact of a set goes, if the set has it.
fn first_sent(to: u8, set: u64) -> u64
    ensures { result ≡ first_sent to set }
{
    if set % 2 == 1 {
        return only(to);
    }
    0
}

// Where the facts of a set go.
fn carry(map: &[u8], set: u64) -> u64
    ensures { result ≡ carried map.now set }
{
    let mut sent: u64 = 0;
    let mut left = set;
    for &to in map {
        sent = masks::join(sent, first_sent(to, left));
        left /= 2;
    }
    sent
}

// Every fact below `facts`.
fn first_facts(facts: u8) -> u64
    requires { facts ≤ 64 }
    ensures { result ≡ first_facts facts }
{
    if facts == 64 {
        return u64::MAX;
    }
    (1 << facts) - 1
}

// A reading under the new table, where facts are sent to those of `taken`: the others of the new table are unread.
fn carry_sets(new: u8, map: &[u8], taken: u64, reading: Reading) -> Reading
    requires { new ≤ 64 }
    ensures { result ≡ carried_sets new map.now taken reading }
{
    let held = carry(map, reading.held);
    let carried = carry(map, reading.unread);
    let unknown = masks::without(first_facts(new), taken);
    let unread = masks::join(carried, unknown);
    Reading { held, unread }
}

// A reading under a table of so many facts, as one under a table of `new` facts: any map.
pub fn map_reading(old: u8, new: u8, map: &[u8], reading: Reading) -> Result<Reading, Refusal>
    requires { new ≤ 64 }
    ensures { answer_of result ≡ mapped_reading old new map.now reading }
{
    let taken = check_map(old, new, map)?;
    Ok(carry_sets(new, map, taken, reading))
}
