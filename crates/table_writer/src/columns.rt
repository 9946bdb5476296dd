// The columns that a table is written from.
ghost use Rattle.std.specs.Prelude.{◌≡◌, ◌<◌, length};
ghost use Rattle.table_writer.specs.Columns.{columns_of, ColumnsFit, writable, even, EvenColumns, first_unwritable, row_at};

use job::Job;

// The columns of a table's jobs: each job's command, then what its operands hold.
#[derive(Clone, Copy)]
pub struct Columns<'a> {
    pub commands: &'a [u8],
    pub needs: &'a [u64],
    pub absent: &'a [u64],
    pub adds: &'a [u64],
    pub deletes: &'a [u64],
    pub seconds: &'a [u16],
    // Each number is one that its column can hold.
    pub ghost held: { ColumnsFit (columns_of commands.now needs.now absent.now adds.now deletes.now seconds.now) },
}

// Can the command's bytes hold these absent facts? A JOB has no place for any.
fn is_writable(command: u8, absent: u64) -> bool
    ensures { result ≡ writable command absent }
{
    command == commands::PAIRED_JOB || command == commands::JOB && absent == 0
}

impl Columns<'_> {
    ghost use Rattle.table_writer.specs.Write.{columns_in};

    // Are the columns as long as each other?
    #[tactic(auto, unfolding(crate::specs::Columns::even))]
    pub fn are_even(self) -> bool
        ensures { result ≡ even (columns_in self.entry) }
    {
        let rows = self.commands.len();
        self.needs.len() == rows
            && self.absent.len() == rows
            && self.adds.len() == rows
            && self.deletes.len() == rows
            && self.seconds.len() == rows
    }

    // The first row that no command's bytes can hold.
    #[tactic(auto, using(crate::specs::WriteLaws::row_unwritable, crate::specs::WriteLaws::row_writable, crate::specs::WriteLaws::none_left))]
    pub fn first_unwritable(self) -> Option<usize>
        requires { EvenColumns (columns_in self) }
        ensures { result ≡ first_unwritable (columns_in self.entry) }
    {
        for i in 0..self.commands.len() {
            if !is_writable(self.commands[i], self.absent[i]) {
                return Some(i);
            }
        }
        None
    }

    pub fn row(self, i: usize) -> Job
        requires { (i < length self.commands.now) × EvenColumns (columns_in self) }
        ensures { result ≡ row_at (columns_in self.entry) i }
    {
        Job {
            needs: self.needs[i],
            absent: self.absent[i],
            adds: self.adds[i],
            deletes: self.deletes[i],
            seconds: self.seconds[i],
            paired: self.commands[i] == commands::PAIRED_JOB,
        }
    }
}
