// The C interface to the search among listed conditions: bay_newest_weaker of include/bay.h, over the proved function of the same meaning. It
// takes every input.
#![tactic(auto)]

ghost use Rattle.std.specs.Prelude.{◌≡◌};
ghost use Rattle.refusal.specs.Checked.{accepted};
ghost use Rattle.bay_words.specs.Words.{words};
ghost use Rattle.bay_search.specs.SearchWords.{found_words, SearchAnswered};

use conditions::Condition;

fn found_words(found: Option<usize>) -> [u64; 3]
    ensures { result ≡ words 3 found_words (accepted found) }
{
    match found {
        None => [0, 0, 0],
        Some(entry) => [0, 1, entry as u64],
    }
}

#[tactic(auto, using(crate::specs::SearchWordLaws::search_answered))]
#[unsafe(no_mangle)]
pub extern "C" fn bay_newest_weaker(
    listed: &[u64],
    absences: &[u64],
    present: u64,
    absent: u64,
    answer: &mut [u64; 3],
) -> u64
    ensures { SearchAnswered listed.now absences.now (record { present = present; absent = absent }) answer.new result }
{
    let condition = Condition { present, absent };
    let found = conditions::newest_weaker(listed, absences, listed.len(), condition);
    bay_words::store(found_words(found), answer)
}
