// The text of the program of document 01, "A trailer on the hitch", made from what was read of `bay.tab` and `start.bay`. Document 02, W10, adds the
// second masks.
#![tactic(auto)]

ghost use Rattle.expander.specs.Expands.{columns};
ghost use Rattle.program_text.specs.Shows.{Lent, Prints, Fits, Shows, PlannedFrom, planned_text};

use planner::Summary;
use reading::Reading;
use refusal::Refusal;

// The bytes of a start: two masks.
pub const START_SIZE: usize = 16;

// The entries of each list table that the program lends, that of the second masks included.
pub const ENTRIES: usize = 4_096;

const TREE_BYTES: usize = 65_535;

// The start. For a file of another length it is one that no table takes: a fact both held and unread.
fn start_of(start: &[u8]) -> Reading
    ensures { PlannedFrom start.now result }
{
    if start.len() != START_SIZE {
        return Reading { held: 1, unread: 1 };
    }
    let held = numbers::read_u64(start, 0);
    let unread = numbers::read_u64(start, 8);
    Reading { held, unread }
}

// The text of a plan's answer, whole where it fits, at the front of `out`. The list of a plan that was built stands in the list
// tables.
fn write_answer(
    planned: Result<Summary, Refusal>,
    conditions: &[u64],
    absences: &[u64],
    actions: &[u8],
    parents: &[u16],
    depths: &[u16],
    out: &mut [u8],
) -> usize
    ensures { Fits planned out.old → Shows
        (planned_text planned
        (columns conditions.now absences.now actions.now parents.now depths.now))
        out.new result }
{
    match planned {
        Err(x) => plan_text::write_refused_text(u8::from(x.reason), x.place, out),
        Ok(s) => plan_text::write_plan_text(
            s.paired, conditions, absences, actions, parents, depths, s.entries, s.bytes, s.jobs,
            s.minutes, out,
        ),
    }
}

// What is printed, at the front of `out`. The buffers hold the first n and m bytes of the two files, which may be longer: the text
// is that of the whole files.
pub fn write_program_text(table: &[u8], n: usize, start: &[u8], m: usize, out: &mut [u8]) -> usize
    requires { Lent table.now n start.now m out.old }
    ensures { Prints table.now n start.now m out.new result }
{
    let mut conditions = [0u64; ENTRIES];
    let mut absences = [0u64; ENTRIES];
    let mut actions = [0u8; ENTRIES];
    let mut parents = [0u16; ENTRIES];
    let mut depths = [0u16; ENTRIES];
    let mut tree = [0u8; TREE_BYTES];
    let planned = planner::plan(
        &table[..n],
        start_of(&start[..m]),
        &mut conditions,
        &mut absences,
        &mut actions,
        &mut parents,
        &mut depths,
        &mut tree,
    );
    write_answer(
        planned,
        &conditions,
        &absences,
        &actions,
        &parents,
        &depths,
        out,
    )
}
