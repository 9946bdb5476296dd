// The jobs of a sound table as a row, for whoever tries every job again and again.
#![tactic(auto)]

ghost use Rattle.std.specs.Prelude.{◌≡◌, ◌≤◌, length};
ghost use Rattle.table.specs.Read.{read_table, jobs_of};
ghost use Rattle.job_rows.specs.Rows.{Loads};

use job::Job;

// Fills the front of a row with a part of each job, in one walk over the table.
pub fn load<T: Copy, F: Fn(Job) -> T>(table: &[u8], count: usize, part: F, row: &mut [T])
    requires { (count ≡ length (jobs_of (read_table table.now))) × (count ≤ length row.old) × F.IsAlwaysCallable part }
    ensures { Loads (F.post part) (jobs_of (read_table table.now)) count row.old row.new }
{
    let mut at: usize = commands::FACTS_SIZE;
    for i in 0..count {
        let past = job::job_from(table, at);
        row[i] = part(past.job);
        at = past.next;
    }
}
