//! How the program ends once there is a report.
ghost use Rattle.std.specs.Prelude.{◌≡◌};
ghost use Rattle.command_words.specs.Status.{status_of};
ghost use Rattle.regsearch.specs.Ending.{status_for};

use command_words::Ended;
use search_report::Outcome;

/// The ending after a report with this outcome.
pub(crate) fn ending_of(outcome: Outcome) -> Ended
    ensures { status_of result ≡ status_for outcome }
{
    match outcome {
        Outcome::Yes => Ended::Yes,
        Outcome::No => Ended::No,
        Outcome::Unknown => Ended::Unknown,
    }
}
