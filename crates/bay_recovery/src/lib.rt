// The C interface to the recovery of a list from its tree: bay_recover_list of include/bay.h, over the proved function of the same meaning. It takes every
// input.
#![tactic(auto)]

ghost use Rattle.std.specs.Prelude.{◌≡◌, []};
ghost use Rattle.expander.specs.Expands.{columns};
ghost use Rattle.bay_words.specs.Words.{words};
ghost use Rattle.bay_recovery.specs.RecoveryWords.{list_words, RecoveryAnswered};
ghost use Rattle.refusal.specs.Checked.{answer_of};

use refusal::Refusal;

fn list_words(listed: Result<usize, Refusal>) -> [u64; 2]
    ensures { result ≡ words 2 list_words (answer_of listed) }
{
    match listed {
        Ok(n) => [0, n as u64],
        Err(why) => [bay_words::number_of(why), why.place as u64],
    }
}

#[unsafe(no_mangle)]
pub extern "C" fn bay_recover_list(
    table: &[u8],
    tree: &[u8],
    conditions: &mut [u64],
    jobs: &mut [u8],
    parents: &mut [u16],
    depths: &mut [u16],
    answer: &mut [u64; 2],
) -> u64
    ensures { RecoveryAnswered table.now tree.now
        (columns conditions.old [] jobs.old parents.old depths.old)
        (columns conditions.new [] jobs.new parents.new depths.new) answer.new result }
{
    let listed = plan_recovery::recover(table, tree, conditions, jobs, parents, depths);
    let told = list_words(listed);
    *answer = told;
    told[0]
}
