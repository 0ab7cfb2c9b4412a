//! How a program ends.
ghost use Rattle.std.specs.Prelude.{◌≡◌};
ghost use Rattle.command_words.specs.Status.{status_of};

/// How a program ended.
#[derive(Clone, Copy, Debug, PartialEq, Eq)]
pub enum Ended {
    /// Of each register what was asked for holds: that it is atomic, or keeps a weaker level.
    Yes,
    /// Of some register it doesn't.
    No,
    /// The search gave up on some register, and no register is known to fail. A program that
    /// always decides never ends so.
    Unknown,
    /// There is no report; with the number of the refusal, 1 to 22.
    Refused(u8),
    /// The words of the command line were refused, or asked for help or the version.
    BadWords,
}

/// The exit status: 0, 1 and 6 with a report, 2 for an input that is refused, 3 for bad
/// words, 4 if input, memory or output failed.
pub fn status(ended: Ended) -> u8
    ensures { result ≡ status_of ended }
{
    match ended {
        Ended::Yes => 0,
        Ended::No => 1,
        Ended::Unknown => 6,
        Ended::Refused(number) if 16 <= number && number <= 18 => 4,
        Ended::Refused(_) => 2,
        Ended::BadWords => 3,
    }
}
