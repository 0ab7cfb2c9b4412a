//! All of some bytes into a sink.
ghost use Rattle.std.specs.Prelude.{◌-◌, ◌^◌, ◌<◌, flat_map, OnOk, OnErr};
ghost use Rattle.std.specs.Io.KnownBytes.{Appends};
ghost use Rattle.byte_ends.specs.Ends.{AppendsBeginning, Counts};

use crate::ends::{IoFail, Sink};

fn push_all<S: Sink>(sink: &mut S, bytes: &[u8]) -> Result<(), IoFail>
    requires { S.failed sink.old < 2 ^ 64 - 1 }
    ensures ok { OnOk result (Appends (S.taken sink.old) (S.taken sink.new) bytes.now) }
    ensures err { OnErr result (AppendsBeginning (S.taken sink.old) (S.taken sink.new) bytes.now) }
    ensures failures { Counts (S.failed sink.old) (S.failed sink.new) result }
{
    let mut at = 0;
    while at < bytes.len() {
        at += sink.push(&bytes[at..])?;
    }
    Ok(())
}

/// Pushes all the bytes of some parts, in order, and flushes.
///
/// # Errors
/// `IoFail` if a push or the flush failed; then a beginning of the bytes is out.
pub fn deliver<S: Sink>(sink: &mut S, parts: &[Vec<u8>]) -> Result<(), IoFail>
    requires { S.failed sink.old < 2 ^ 64 - 1 }
    ensures ok { OnOk result
        (Appends (S.taken sink.old) (S.taken sink.new) (flat_map (λ part. part.items) parts.now)) }
    ensures flushed { OnOk result (S.is_flushed sink.new) }
    ensures err { OnErr result
        (AppendsBeginning (S.taken sink.old) (S.taken sink.new) (flat_map (λ part. part.items) parts.now)) }
    ensures failures { Counts (S.failed sink.old) (S.failed sink.new) result }
{
    for part in parts {
        push_all(sink, part.as_slice())?;
    }
    sink.flush()
}
