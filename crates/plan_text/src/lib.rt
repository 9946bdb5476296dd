// The text that the program prints (document 01, "A trailer on the hitch"; document 02, W10), put into a lent slice: as much of it as the slice
// has room for. A list is `paired` once its table has a 0x21: each condition is then shown with both masks.
#![tactic(auto)]

ghost use Rattle.std.specs.Prelude.{◌≡◌, [], ◌∷◌, ◌++◌, ◌≤◌, length};
ghost use Rattle.text_fields.specs.Fields.{ascii, decimal};
ghost use Rattle.text_fields.specs.Puts.{Put};
ghost use Rattle.planning.specs.Columns.{entries_of};
ghost use Rattle.plan_text.specs.Text.{line, condition_text, job_text, entry_text, entries_text, plan_text, refused_text};
ghost use Rattle.plan_text.specs.Writes.{Wrote, with_absences, shown};

use conditions::Condition;

const SEPARATOR: u8 = b' ';

const LINE_FEED: u8 = b'\n';

// The most bytes of an entry's line: an entry of 4 digits, both masks, its job, parent and depth, each with the byte that ends it.
pub const ENTRY_LINE: usize = (4 + 1) + (16 + 1) + (16 + 1) + (3 + 1) + (5 + 1) + (5 + 1);

// The most bytes of the lines around the entries: a word and two numbers each.
pub const OTHER_LINES: usize = (4 + 1) + (20 + 1) + (20 + 1) + ((3 + 1) + (20 + 1) + (10 + 1));

// A number that is not the first field of its line.
fn put_next(out: &mut [u8], at: usize, n: u64) -> usize
    ensures { Put out.old out.new at result (ascii " " ++ decimal n) }
{
    let at = text_fields::put_byte(out, at, SEPARATOR);
    text_fields::put_decimal(out, at, n)
}

// A line of a word and two numbers.
fn put_line(out: &mut [u8], at: usize, word: &[u8], a: u64, b: u64) -> usize
    ensures { Put out.old out.new at result (line word.now (decimal a ∷ decimal b ∷ [])) }
{
    let at = text_fields::put_bytes(out, at, word);
    let at = put_next(out, at, a);
    let at = put_next(out, at, b);
    text_fields::put_byte(out, at, LINE_FEED)
}

fn put_condition(out: &mut [u8], at: usize, paired: bool, condition: Condition) -> usize
    ensures { Put out.old out.new at result (condition_text paired condition) }
{
    let at = text_fields::put_mask(out, at, condition.present);
    if !paired {
        return at;
    }
    let at = text_fields::put_byte(out, at, SEPARATOR);
    text_fields::put_mask(out, at, condition.absent)
}

fn put_job(out: &mut [u8], at: usize, entry: usize, job: u8) -> usize
    ensures { Put out.old out.new at result (job_text entry job) }
{
    if entry == 0 {
        return text_fields::put_byte(out, at, b'-');
    }
    text_fields::put_decimal(out, at, job as u64)
}

fn put_entry(
    out: &mut [u8],
    at: usize,
    paired: bool,
    entry: usize,
    condition: Condition,
    job: u8,
    parent: u16,
    depth: u16,
) -> usize
    ensures { Put out.old out.new at result
        (entry_text paired entry (record { condition = condition; action = job; parent = parent; depth = depth })) }
{
    let at = text_fields::put_decimal(out, at, entry as u64);
    let at = text_fields::put_byte(out, at, SEPARATOR);
    let at = put_condition(out, at, paired, condition);
    let at = text_fields::put_byte(out, at, SEPARATOR);
    let at = put_job(out, at, entry, job);
    let at = put_next(out, at, parent as u64);
    let at = put_next(out, at, depth as u64);
    text_fields::put_byte(out, at, LINE_FEED)
}

// The lines of the first `n` entries.
fn put_entries(
    paired: bool,
    conditions: &[u64],
    absences: &[u64],
    actions: &[u8],
    parents: &[u16],
    depths: &[u16],
    n: usize,
    out: &mut [u8],
    at: usize,
) -> usize
    requires { (n ≤ length conditions.now) × (n ≤ length actions.now) × (n ≤ length parents.now) × (n ≤ length depths.now) × (at ≤ length out.old) }
    ensures { Put out.old out.new at result (entries_text paired 0
        (entries_of conditions.now absences.now actions.now parents.now depths.now n)) }
{
    let mut next = at;
    for i in 0..n {
        let condition = conditions::condition_at(conditions, absences, i);
        next = put_entry(
            out, next, paired, i, condition, actions[i], parents[i], depths[i],
        );
    }
    next
}

// Of so many entries those that have a second mask, where it is shown.
fn with_absences(paired: bool, entries: usize, absences: usize) -> usize
    ensures { result ≡ with_absences paired entries absences }
{
    if paired {
        entries.min(absences)
    } else {
        entries
    }
}

// The text of a plan whose list stands in the columns: as many entries as asked for, where each column has so many. The second masks are those of
// a paired list; of any other, whatever is lent for them, none is shown.
pub fn write_plan_text(
    paired: bool,
    conditions: &[u64],
    absences: &[u64],
    actions: &[u8],
    parents: &[u16],
    depths: &[u16],
    entries: usize,
    bytes: usize,
    jobs: usize,
    minutes: u32,
    out: &mut [u8],
) -> usize
    ensures { Wrote
        (plan_text paired entries bytes
        (entries_of conditions.now absences.now actions.now parents.now depths.now
        (shown paired entries conditions.now absences.now actions.now parents.now depths.now))
        jobs minutes)
        out.old out.new result }
{
    let listed = entries
        .min(conditions.len())
        .min(actions.len())
        .min(parents.len())
        .min(depths.len());
    let n = with_absences(paired, listed, absences.len());
    let at = put_line(out, 0, b"plan", entries as u64, bytes as u64);
    let at = put_entries(
        paired, conditions, absences, actions, parents, depths, n, out, at,
    );
    put_line(out, at, b"way", jobs as u64, minutes as u64)
}

// The text of a stop.
pub fn write_refused_text(number: u8, place: usize, out: &mut [u8]) -> usize
    ensures { Wrote (refused_text number place) out.old out.new result }
{
    put_line(out, 0, b"refused", number as u64, place as u64)
}
