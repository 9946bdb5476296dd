// Conditions, and what actions do to states and to conditions: document 01, "Expansion", "Ticking" and "Job card"; document 02, W10. Nobody above
// this crate and the table looks into an action or a condition. An action is document 01's job, without its seconds.
#![tactic(auto)]

ghost use Rattle.std.specs.Prelude.{◌≡◌, true, ◌-◌, ◌≤◌, length, get_or, set};
ghost use Rattle.conditions.specs.Condition.{consistent, condition_within, satisfied, relevant, regressed, condition_at, action_at};
ghost use Rattle.masks.specs.Sets.{others};
ghost use Rattle.conditions.specs.Search.{Sharing, Searches};
ghost use Rattle.conditions.specs.OnReading.{evaluated, applicable, finished};

use reading::Reading;

// The facts that are to hold, and those that are to be absent.
#[derive(Clone, Copy)]
pub struct Condition {
    pub present: u64,
    pub absent: u64,
}

// The facts that the action needs, those that it needs absent, and those that it adds and deletes.
#[derive(Clone, Copy, Default)]
pub struct Action {
    pub needs: u64,
    pub absent: u64,
    pub adds: u64,
    pub deletes: u64,
}

// ---- columns of masks, of which one may be lent short

// A mask of a column, which holds no facts past its end.
pub fn mask_at(column: &[u64], i: usize) -> u64
    ensures { result ≡ get_or column.now i 0 }
{
    if i < column.len() {
        return column[i];
    }
    0
}

// A mask is stored in a column, which takes none past its end.
pub fn set_mask(column: &mut [u64], i: usize, mask: u64)
    ensures { column.new ≡ set column.old i mask }
{
    if i < column.len() {
        column[i] = mask;
    }
}

// The condition at an index of two columns.
pub fn condition_at(conditions: &[u64], absences: &[u64], i: usize) -> Condition
    ensures { result ≡ condition_at conditions.now absences.now i }
{
    let present = mask_at(conditions, i);
    let absent = mask_at(absences, i);
    Condition { present, absent }
}

// The action at an index of four columns.
pub fn action_at(needs: &[u64], absent: &[u64], adds: &[u64], deletes: &[u64], i: usize) -> Action
    ensures { result ≡ action_at needs.now absent.now adds.now deletes.now i }
{
    let needed = mask_at(needs, i);
    let lacked = mask_at(absent, i);
    let added = mask_at(adds, i);
    let deleted = mask_at(deletes, i);
    Action {
        needs: needed,
        absent: lacked,
        adds: added,
        deletes: deleted,
    }
}

// ---- conditions among themselves

// Does it want no fact both ways?
pub fn is_consistent(c: Condition) -> bool
    ensures { result ≡ consistent c }
{
    !masks::share_fact(c.present, c.absent)
}

// Does it speak of no fact at or above `facts`?
pub fn is_within(facts: u8, c: Condition) -> bool
    ensures { result ≡ condition_within facts c }
{
    masks::is_within(facts, masks::join(c.present, c.absent))
}

// Have the four masks before k each a fact of `others`?
fn four_share(conditions: &[u64], k: usize, others: u64) -> bool
    requires { (4 ≤ k) × (k ≤ length conditions.now) }
    ensures { result ≡ true → Sharing conditions.now others (k - 4) k }
{
    if !masks::share_fact(conditions[k - 1], others) {
        return false;
    }
    if !masks::share_fact(conditions[k - 2], others) {
        return false;
    }
    if !masks::share_fact(conditions[k - 3], others) {
        return false;
    }
    masks::share_fact(conditions[k - 4], others)
}

// Where the search for parts of a mask goes on: from there to n no mask is one. They are looked at four at a time, since most are none: each has a fact
// that is not among the mask's.
fn past_others(conditions: &[u64], n: usize, mask: u64) -> usize
    requires { n ≤ length conditions.now }
    ensures { (result ≤ n) × Sharing conditions.now (others mask) result n }
{
    let others = masks::others(mask);
    let mut k = n;
    while k >= 4 {
        if !four_share(conditions, k, others) {
            return k;
        }
        k -= 4;
    }
    k
}

// The newest of the first n listed conditions that is a part of `c` (document 02, W6). The second column is looked at only where the first mask
// fits.
#[tactic(auto, using(crate::proofs::NoneLeft::none_left))]
pub fn newest_weaker(conditions: &[u64], absences: &[u64], n: usize, c: Condition) -> Option<usize>
    requires { n ≤ length conditions.now }
    ensures { Searches conditions.now absences.now n c result }
{
    let mut k = past_others(conditions, n, c.present);
    'search: loop {
        if k == 0 {
            break None;
        }
        k -= 1;
        let present = conditions[k];
        if masks::is_subset(present, c.present) {
            let absent = mask_at(absences, k);
            if masks::is_subset(absent, c.absent) {
                break Some(k);
            }
        }
    }
}

// ---- conditions, states and actions

// Does the state meet the condition?
pub fn is_satisfied(c: Condition, state: u64) -> bool
    ensures { result ≡ satisfied c state }
{
    masks::is_subset(c.present, state) && !masks::share_fact(c.absent, state)
}

// Does the action serve the condition: bring a fact of it about, and undo none?
pub fn is_relevant(a: Action, c: Condition) -> bool
    ensures { result ≡ relevant a c }
{
    if masks::share_fact(a.deletes, c.present) {
        return false;
    }
    if masks::share_fact(a.adds, c.absent) {
        return false;
    }
    if masks::share_fact(a.adds, c.present) {
        return true;
    }
    masks::share_fact(a.deletes, c.absent)
}

// What must hold before the action, for the condition to hold after it.
pub fn regress(a: Action, c: Condition) -> Condition
    ensures { result ≡ regressed a c }
{
    let present = masks::join(a.needs, masks::without(c.present, a.adds));
    let absent = masks::join(a.absent, masks::without(c.absent, a.deletes));
    Condition { present, absent }
}

// ---- on a reading

// What a reading says of a condition.
#[derive(Clone, Copy)]
pub enum Evaluation {
    Met,
    Missed,
    // It hangs on these facts, which are unread.
    Open(u64),
}

pub fn evaluate(reading: Reading, c: Condition) -> Evaluation
    ensures { result ≡ evaluated reading c }
{
    let possible = masks::join(reading.held, reading.unread);
    if !masks::is_subset(c.present, possible) {
        return Evaluation::Missed;
    }
    if masks::share_fact(c.absent, reading.held) {
        return Evaluation::Missed;
    }
    let unread = masks::join(c.present, c.absent) & reading.unread;
    if unread == 0 {
        return Evaluation::Met;
    }
    Evaluation::Open(unread)
}

// Is all that the action needs read and held, and all that it needs absent read and absent?
pub fn is_applicable(a: Action, reading: Reading) -> bool
    ensures { result ≡ applicable a reading }
{
    let not_absent = masks::join(reading.held, reading.unread);
    masks::is_subset(a.needs, reading.held) && !masks::share_fact(a.absent, not_absent)
}

// The reading after the action was finished, with what it added and deleted now read.
pub fn finish(a: Action, reading: Reading) -> Reading
    ensures { result ≡ finished a reading }
{
    let held = masks::without(masks::join(reading.held, a.adds), a.deletes);
    let unread = masks::without(masks::without(reading.unread, a.adds), a.deletes);
    Reading { held, unread }
}
