// The C interface to both plans: the functions of include/bay.h that build a list and its tree, each over the proved function of the same
// meaning. Every function takes every input.
#![tactic(auto)]

ghost use Rattle.std.specs.Prelude.{◌≡◌, length};
ghost use Rattle.expander.specs.Expands.{columns, room};
ghost use Rattle.planner.specs.Plan.{plan_for};
ghost use Rattle.shift_planner.specs.Shift.{plan_shift};
ghost use Rattle.bay_words.specs.Words.{words};
ghost use Rattle.bay_plan.specs.PlanWords.{summary_words, size_words, PlanAnswered, ShiftAnswered};
ghost use Rattle.refusal.specs.Checked.{answer_of};

use builder::Size;
use planner::Summary;
use reading::Reading;
use refusal::Refusal;

fn planned_words(planned: Result<Summary, Refusal>) -> [u64; 6]
    ensures { result ≡ words 6 summary_words (answer_of planned) }
{
    match planned {
        Ok(s) => [
            0,
            s.entries as u64,
            s.bytes as u64,
            s.jobs as u64,
            s.minutes as u64,
            bay_words::flag_word(s.paired),
        ],
        Err(why) => [bay_words::number_of(why), why.place as u64, 0, 0, 0, 0],
    }
}

#[unsafe(no_mangle)]
pub extern "C" fn bay_plan(
    table: &[u8],
    held: u64,
    unread: u64,
    conditions: &mut [u64],
    absences: &mut [u64],
    jobs: &mut [u8],
    parents: &mut [u16],
    depths: &mut [u16],
    tree: &mut [u8],
    answer: &mut [u64; 6],
) -> u64
    ensures { PlanAnswered table.now (record { held = held; unread = unread })
        (plan_for table.now (record { held = held; unread = unread })
        (room (columns conditions.old absences.old jobs.old parents.old depths.old)) (length tree.old))
        (columns conditions.old absences.old jobs.old parents.old depths.old)
        (columns conditions.new absences.new jobs.new parents.new depths.new)
        tree.old tree.new answer.new result }
{
    let planned = planner::plan(
        table,
        Reading { held, unread },
        conditions,
        absences,
        jobs,
        parents,
        depths,
        tree,
    );
    let summary = planned_words(planned);
    *answer = summary;
    summary[0]
}

fn shift_words(planned: Result<Size, Refusal>) -> [u64; 4]
    ensures { result ≡ words 4 size_words (answer_of planned) }
{
    match planned {
        Ok(size) => [
            0,
            size.entries as u64,
            size.bytes as u64,
            bay_words::flag_word(size.paired),
        ],
        Err(why) => [bay_words::number_of(why), why.place as u64, 0, 0],
    }
}

#[unsafe(no_mangle)]
pub extern "C" fn bay_plan_shift(
    table: &[u8],
    conditions: &mut [u64],
    absences: &mut [u64],
    jobs: &mut [u8],
    parents: &mut [u16],
    depths: &mut [u16],
    tree: &mut [u8],
    answer: &mut [u64; 4],
) -> u64
    ensures { ShiftAnswered table.now
        (plan_shift table.now
        (room (columns conditions.old absences.old jobs.old parents.old depths.old))
        (length tree.old))
        (columns conditions.old absences.old jobs.old parents.old depths.old)
        (columns conditions.new absences.new jobs.new parents.new depths.new)
        tree.old tree.new answer.new result }
{
    let planned = shift_planner::plan_shift(
        table, conditions, absences, jobs, parents, depths, tree,
    );
    let size = shift_words(planned);
    *answer = size;
    size[0]
}
