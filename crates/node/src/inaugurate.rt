//! Inauguration: a directory for the reports held comes into force.

ghost use Rattle.std.specs.Prelude.{◌≡◌};
ghost use Rattle.counter.specs.Crc.{crc};
ghost use Rattle.train.specs.Bytes.{rows_bytes};
ghost use Rattle.directory.specs.Meaning.{rows_of};
ghost use Rattle.plan.specs.Meaning.{Meaning};
ghost use Rattle.runs.specs.Calls.{Does, inaugurate as inaugurating, same_rows, bars, with_rows};
ghost use Rattle.node.specs.Seen.{seen};
ghost use Rattle.node.specs.Told.{inauguration_told};

use crate::fault::InaugurationFault;
use crate::node::Node;
use directory::Directory;

impl Node<'_> {
    /// Whether its rows are those in force.
    fn is_in_force(&self, directory: &Directory) -> bool
        ensures { result ≡ same_rows (rows_of directory.now) (rows_of self.now.directory) }
    {
        directory.same(&self.directory)
    }

    /// Whether a hold is out and the directory is not in force.
    fn is_barred(&self, directory: &Directory) -> bool
        ensures { result ≡ bars (seen self.now) (rows_of directory.now) }
    {
        self.holds > 0 && !self.is_in_force(directory)
    }

    /// The directory comes into force whole; answers its counter.
    fn enforce(&mut self, directory: Directory) -> u32
        ensures answer { result ≡ crc (rows_bytes (rows_of directory)) }
        ensures left { seen self.new ≡ with_rows (seen self.old) (rows_of directory) }
    {
        self.directory = directory;
        directory.counter()
    }

    /// Brings the directory of the reports held into force, and answers its counter.
    pub fn inaugurate(&mut self) -> Result<u32, InaugurationFault>
        ensures { (plan : Meaning) → Does plan (seen self.old) inaugurating (inauguration_told result) (seen self.new) }
    {
        let found = inauguration::inaugurate(self.mac, self.reports.records())?;
        if self.is_barred(&found) {
            return Err(InaugurationFault::Barred);
        }
        Ok(self.enforce(found))
    }
}
