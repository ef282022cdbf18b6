//! The arguments that many runs share, and checks of how a run ended and what it wrote.

use crate::Ran;
use bloaty_engine::Outcome;

/// The arguments of the command, for a file.
pub const COMMAND: [&str; 7] = [
    "--csv",
    "-n",
    "0",
    "-d",
    "sections",
    "--domain=file",
    "a.elf",
];

// Whether bytes are these lines, each ended by a line feed.
fn are_lines(bytes: &[u8], lines: &[&str]) -> bool {
    let mut left = bytes;
    for line in lines {
        let Some(end) = left.strip_prefix(line.as_bytes()) else {
            return false;
        };
        let Some(next) = end.strip_prefix(b"\n") else {
            return false;
        };
        left = next;
    }
    left.is_empty()
}

/// Whether the run is done, its report has these lines, and it wrote no error line.
pub fn is_report(ran: &Ran, lines: &[&str]) -> bool {
    ran.outcome == Outcome::Done && are_lines(&ran.out, lines) && ran.err.is_empty()
}

/// Whether the run ends with this outcome, this status and this line, and wrote nothing to the output.
pub fn is_end(ran: &Ran, outcome: Outcome, status: u8, line: &str) -> bool {
    ran.outcome == outcome
        && ran.outcome.status() == status
        && are_lines(&ran.err, &[line])
        && ran.out.is_empty()
}
