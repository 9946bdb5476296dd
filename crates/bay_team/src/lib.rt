// The C interface to the plan for two fitters: bay_plan_team of include/bay.h, over the proved function of the same meaning. It takes every input.
#![tactic(auto)]

ghost use Rattle.std.specs.Prelude.{◌≡◌};
ghost use Rattle.expander.specs.Expands.{columns};
ghost use Rattle.team_planner.specs.Team.{of_each};
ghost use Rattle.bay_words.specs.Words.{words};
ghost use Rattle.bay_team.specs.TeamWords.{team_words, TeamAnswered};
ghost use Rattle.refusal.specs.Checked.{answer_of};

use reading::Reading;
use refusal::Refusal;
use team_planner::TeamSize;

fn team_words(planned: Result<TeamSize, Refusal>) -> [u64; 5]
    ensures { result ≡ words 5 team_words (answer_of planned) }
{
    match planned {
        Ok(size) => [
            0,
            size.entries as u64,
            size.first as u64,
            size.second as u64,
            bay_words::flag_word(size.paired),
        ],
        Err(why) => [bay_words::number_of(why), why.place as u64, 0, 0, 0],
    }
}

#[unsafe(no_mangle)]
pub extern "C" fn bay_plan_team(
    table: &[u8],
    licences: &[u8],
    held: u64,
    unread: u64,
    conditions: &mut [u64],
    absences: &mut [u64],
    jobs: &mut [u8],
    parents: &mut [u16],
    depths: &mut [u16],
    first: &mut [u8],
    second: &mut [u8],
    answer: &mut [u64; 5],
) -> u64
    ensures { TeamAnswered table.now licences.now (record { held = held; unread = unread })
        (columns conditions.old absences.old jobs.old parents.old depths.old)
        (columns conditions.new absences.new jobs.new parents.new depths.new)
        (of_each first.old second.old) (of_each first.new second.new) answer.new result }
{
    let planned = team_planner::plan_team(
        table,
        licences,
        Reading { held, unread },
        conditions,
        absences,
        jobs,
        parents,
        depths,
        first,
        second,
    );
    let size = team_words(planned);
    *answer = size;
    size[0]
}
