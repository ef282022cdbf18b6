//! The labels of the rows of a line program.

ghost use Rattle.std.specs.Prelude.{◌≡◌, ◌++◌, codes, decimal, IfOk, OnOk};
ghost use Rattle.dwarf_claims.specs.LineClaims.{row_label};
ghost use Rattle.dwarf_claims.specs.RowSteps.{HasPath, IsPath};

use claim_sheet::append;
use dwarf_lines::{LineProgram, LineRow};
use itoa::Buffer;
use size_core::NoMemory;

/// The label of a row: a path, a colon and a line. The buffer is reused for the next row. Consecutive rows of one file
/// keep the path, since only the line changes.
#[derive(Drop)]
pub struct RowLabel {
    /// The label.
    pub text: Vec<u8>,
    /// The length of the path, with which the text begins.
    pub path_len: usize,
    /// The number of the file that has this path.
    pub file: u64,
}

impl RowLabel {
    /// Sets the label to the path of a file of a program, without a line.
    pub fn set_file(&mut self, program: &LineProgram<'_>, file: u64) -> Result<(), NoMemory>
        ensures { OnOk result (IsPath program.now file self.new) }
    {
        self.text.clear();
        program.path(file, &mut self.text)?;
        self.path_len = self.text.len();
        self.file = file;
        Ok(())
    }

    /// Sets the path to that of a file, unless it is there already, and drops the line.
    fn set_path(&mut self, program: &LineProgram<'_>, file: u64) -> Result<(), NoMemory>
        requires { HasPath program.now self.old }
        ensures { OnOk result (IsPath program.now file self.new) }
    {
        if self.file != file {
            return self.set_file(program, file);
        }
        self.text.truncate(self.path_len);
        self.path_len = self.text.len();
        Ok(())
    }

    /// Sets the label to that of a row.
    #[tactic(auto, unfolding(crate::specs::LineClaims::row_label))]
    pub fn set(&mut self, program: &LineProgram<'_>, row: &LineRow) -> Result<(), NoMemory>
        requires { HasPath program.now self.old }
        ensures text { OnOk result (self.new.text.items ≡ row_label program.now row.now) }
        ensures has { OnOk result (HasPath program.now self.new) }
    {
        self.set_path(program, row.file)?;
        append(&mut self.text, b":")?;
        append(&mut self.text, Buffer::new().format(row.line).as_bytes())
    }
}
