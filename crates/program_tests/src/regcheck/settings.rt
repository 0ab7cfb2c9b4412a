//! The settings of runs.
ghost use Rattle.std.specs.Prelude.{◌≡◌, false, IfOk};

use reg_report::Settings;
use std::test::Fail;

// This many workers, and this many reads to a piece, for a whole report.
pub(crate) fn settings(workers: u32, cut: u32) -> Result<Settings, Fail>
    ensures { IfOk result (λ s. s.first ≡ false) }
{
    Ok(Settings::new(workers, cut, false).ok_or("a number beyond its limit")?)
}

// The same, of a run that asks for only the first register that isn't atomic.
pub(crate) fn first_settings(workers: u32, cut: u32) -> Result<Settings, Fail> {
    Ok(Settings::new(workers, cut, true).ok_or("a number beyond its limit")?)
}
