//! What goes to standard error if there is no report.
ghost use Rattle.command_words.specs.Status.{HasNoReport};

use crate::ending::Ended;
use crate::fault::WordsFault;
use std::alloc::AllocError;
use std::fmt::Display;
use std::io;

/// The refusal if memory ran out.
const NO_ROOM: u8 = 17;

/// Says that memory ran out.
fn tell_no_room(rt: &impl Eprint) -> Ended
    ensures { HasNoReport result }
{
    let _ = eprintln!(rt; "no memory or no thread");
    Ended::Refused(NO_ROOM)
}

/// Says why there is no report, by a refusal and its number.
pub fn tell<R: Display>(rt: &(impl Eprint + AllocGlobal), refusal: &R, number: u8) -> Ended
    ensures { HasNoReport result }
{
    match format!(in rt.alloc(); "{refusal}") {
        Ok(text) => {
            let _ = eprintln!(rt; "{text}");
            Ended::Refused(number)
        }
        Err(AllocError) => tell_no_room(rt),
    }
}

/// Says which file couldn't be opened, and the system's reason, by the
/// refusal of such an input and its number.
pub fn tell_unopened<R: Display>(
    rt: &(impl Eprint + AllocGlobal),
    refusal: &R,
    number: u8,
    path: &str,
    error: &io::Error,
) -> Ended
    ensures { HasNoReport result }
{
    match format!(in rt.alloc(); "{refusal}") {
        Ok(text) => {
            let _ = eprintln!(rt; "{text}: {path}: {error}");
            Ended::Refused(number)
        }
        Err(AllocError) => tell(rt, refusal, number),
    }
}

/// Says why there are no words.
pub fn tell_no_words(rt: &impl Eprint, fault: &WordsFault) -> Ended
    ensures { HasNoReport result }
{
    match fault {
        WordsFault::Bad(text) => {
            let _ = eprint!(rt; "{text}");
            Ended::BadWords
        }
        WordsFault::Memory => tell_no_room(rt),
    }
}
