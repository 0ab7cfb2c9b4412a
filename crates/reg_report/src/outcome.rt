//! Whether a history is atomic, as the caller is told it.
use report_text::check::Report;

/// Whether the history is atomic.
#[derive(Clone, Copy, Debug, PartialEq, Eq)]
pub enum Outcome {
    /// Each register is atomic.
    Atomic,
    /// Some register isn't.
    NotAtomic,
}

impl Outcome {
    ghost use Rattle.std.specs.Prelude.{◌≡◌};
    ghost use Rattle.reg_report.specs.Answer.{outcome_of};

    /// What the report says of the whole history.
    pub fn of(report: &Report) -> Outcome
        ensures { result ≡ outcome_of report.now }
    {
        if report.atomic {
            Outcome::Atomic
        } else {
            Outcome::NotAtomic
        }
    }
}
