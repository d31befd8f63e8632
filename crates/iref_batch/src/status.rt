//! How far a program has come, and how it ends.
ghost use Rattle.std.specs.{Prelude.{◌≡◌, ◌<◌, ◌≤◌, ◌*◌, ◌/◌, max}, Process.{exit_status}};
ghost use Rattle.iref_batch.specs.Statuses.{number_of};

use std::process::ExitCode;

/// How many percent of the whole a part is, rounded down: 2 of 8 are 25. It is 100 where the part
/// is no less than the whole.
pub fn percent(part: u64, whole: u64) -> u64
    ensures below { part < whole → result ≡ part * 100 / whole }
    ensures all { whole ≤ part → result ≡ 100 }
{
    if part >= whole {
        return 100;
    }
    (u128::from(part) * 100 / u128::from(whole)) as u64
}

/// How the program ends; the greatest of all that it met counts.
#[derive(Clone, Copy, PartialEq, Eq, PartialOrd, Ord)]
pub enum Status {
    /// All went well.
    Well,
    /// A text or a line is wrong, memory was refused, or a write failed.
    Wrong,
    /// The words are wrong, or a file cannot be read.
    Misused,
}

impl Status {
    /// The worse of two: of `Well` and `Wrong`, `Wrong`.
    pub fn worse(self, other: Status) -> Status
        ensures { number_of result ≡ max (number_of self) (number_of other) }
    {
        self.max(other)
    }
}

impl From<Status> for ExitCode {
    ghost from_gives = { λ status code. exit_status code ≡ number_of status };

    fn from(status: Status) -> ExitCode {
        ExitCode::from(match status {
            Status::Well => 0,
            Status::Wrong => 1,
            Status::Misused => 2,
        })
    }
}
