// The C interface to the table: the functions of include/bay.h that read and write one, each over the proved function of the same
// meaning. Every function takes every input.
#![tactic(auto)]

ghost use Rattle.std.specs.Prelude.{◌≡◌, ◌∷◌, length};
ghost use Rattle.refusal.specs.Checked.{and_then, answer_of};
ghost use Rattle.table.specs.Table.{table_bytes};
ghost use Rattle.table.specs.Read.{read_table, headed, named_job};
ghost use Rattle.table_writer.specs.Columns.{columns_of};
ghost use Rattle.table_writer.specs.Write.{table_of, writing, table_written_of, lent_after};
ghost use Rattle.bay_words.specs.Words.{words, Answered};
ghost use Rattle.bay_table.specs.TableWords.{header_words, job_words, writing_words};

use job::Job;
use table::Header;
use table_writer::NotWritten;
use table_writer::columns::Columns;

// What the words of include/bay.h are called there.
const BAY_TOO_SHORT: u64 = 100;

const BAY_UNEVEN: u64 = 101;

const BAY_UNWRITABLE: u64 = 103;

fn header_words(header: Header) -> [u64; 5]
    ensures { result ≡ 0 ∷ header_words header }
{
    [
        0,
        header.facts as u64,
        header.jobs as u64,
        header.goal,
        bay_words::flag_word(header.paired),
    ]
}

#[unsafe(no_mangle)]
pub extern "C" fn bay_read_table(table: &[u8], answer: &mut [u64; 5]) -> u64
    ensures { Answered (words 5 header_words (headed (read_table table.now))) answer.new result }
{
    let header = table::read_table(table).map(header_words);
    bay_words::answer(header, answer)
}

fn job_words(job: Job) -> [u64; 7]
    ensures { result ≡ 0 ∷ job_words job }
{
    [
        0,
        job.needs,
        job.adds,
        job.deletes,
        job.seconds as u64,
        job.absent,
        job::command_of(job) as u64,
    ]
}

#[unsafe(no_mangle)]
pub extern "C" fn bay_read_job(table: &[u8], job: usize, answer: &mut [u64; 7]) -> u64
    ensures { Answered (words 7 job_words (and_then (read_table table.now) (λ t. named_job t job 0))) answer.new result }
{
    let named = table::read_job(table, job).map(job_words);
    bay_words::answer(named, answer)
}

fn written_words(written: Result<usize, NotWritten>) -> [u64; 2]
    ensures { result ≡ writing_words (table_written_of written) }
{
    match written {
        Ok(size) => [0, size as u64],
        Err(NotWritten::TooShort(size)) => [BAY_TOO_SHORT, size as u64],
        Err(NotWritten::Uneven) => [BAY_UNEVEN, 0],
        Err(NotWritten::Unwritable(row)) => [BAY_UNWRITABLE, row as u64],
        Err(NotWritten::Refused(x)) => bay_words::words_of(Err(x)),
    }
}

#[unsafe(no_mangle)]
pub extern "C" fn bay_write_table(
    facts: usize,
    commands: &[u8],
    needs: &[u64],
    absent: &[u64],
    adds: &[u64],
    deletes: &[u64],
    seconds: &[u16],
    goal: u64,
    out: &mut [u8],
    answer: &mut [u64; 2],
) -> u64
    ensures answers { Answered (writing_words
        (writing (columns_of commands.now needs.now absent.now adds.now deletes.now seconds.now)
        facts goal (length out.old))) answer.new result }
    ensures lends { out.new ≡ lent_after
        (writing (columns_of commands.now needs.now absent.now adds.now deletes.now seconds.now)
        facts goal (length out.old))
        (table_bytes (table_of (columns_of commands.now needs.now absent.now adds.now deletes.now seconds.now)
        facts goal)) out.old }
{
    let columns = Columns {
        commands,
        needs,
        absent,
        adds,
        deletes,
        seconds,
    };
    let written = table_writer::write_table(facts, columns, goal, out);
    bay_words::store(written_words(written), answer)
}
