//! A law of files with debug files, as the contract of an empty function.

ghost use Rattle.file_profile.specs.Laws.{CountsFileAlone};

/// If a file is counted with its debug file, the length and the loads are those of the file. So every size counts bytes
/// and addresses of the stripped file, and none of its debug file.
pub fn debug_file_adds_no_size()
    ensures { CountsFileAlone }
{}
