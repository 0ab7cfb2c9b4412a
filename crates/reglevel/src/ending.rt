//! How the program ends once there is a report.
ghost use Rattle.std.specs.Prelude.{◌≡◌};
ghost use Rattle.command_words.specs.Status.{status_of};
ghost use Rattle.reglevel.specs.Ending.{status_by_level};

use command_words::Ended;
use level_report::Outcome;

/// The ending after a report with this outcome.
pub(crate) fn ending_of(outcome: Outcome) -> Ended
    ensures { status_of result ≡ status_by_level outcome }
{
    match outcome {
        Outcome::Kept => Ended::Yes,
        Outcome::Broken => Ended::No,
        Outcome::Unknown => Ended::Unknown,
    }
}
