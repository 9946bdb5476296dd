// The C interface to the distances of all states: bay_measure_distances of include/bay.h, over the proved function of the same meaning. It takes every
// input.
#![tactic(auto)]

ghost use Rattle.std.specs.Prelude.{◌≡◌};
ghost use Rattle.bay_words.specs.Words.{words};
ghost use Rattle.bay_distances.specs.DistanceWords.{state_words, DistancesAnswered};
ghost use Rattle.refusal.specs.Checked.{answer_of};

use refusal::Refusal;

fn measured_words(measured: Result<usize, Refusal>) -> [u64; 2]
    ensures { result ≡ words 2 state_words (answer_of measured) }
{
    match measured {
        Ok(n) => [0, n as u64],
        Err(x) => [bay_words::number_of(x), x.place as u64],
    }
}

#[unsafe(no_mangle)]
pub extern "C" fn bay_measure_distances(table: &[u8], row: &mut [u16], answer: &mut [u64; 2]) -> u64
    ensures { DistancesAnswered table.now row.old row.new answer.new result }
{
    let told = measured_words(distances::measure(table, row));
    *answer = told;
    told[0]
}
