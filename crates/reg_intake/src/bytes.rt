//! All the bytes of a source, in one piece.
ghost use Rattle.std.specs.Prelude.{◌≡◌, ◌-◌, ◌^◌, ◌<◌, ◌≤◌, ℕ, List, length, IfOk, IfErr};
ghost use Rattle.history_text.specs.declared.limits.TheConstants.{MAX_INPUT};
ghost use Rattle.reg_intake.specs.Ends.{IsAll};
ghost use Rattle.reg_intake.specs.Refused.{IsRefusedBy};

use crate::buffer::Buffer;
use crate::pulls::Pulls;
use crate::refusal::Refusal;
use byte_ends::Source;
use std::alloc::Global;

/// All the bytes that the source has left.
///
/// # Errors
/// `InputFailed` if a pull failed, `TooLong` if there are more bytes than the limit of an input, and `NoRoom`
/// if memory ran out and what was left was pulled without either.
pub fn all_bytes<S: Source>(alloc: Global, source: &mut S) -> Result<Vec<u8>, Refusal>
    requires { S.failed source.old < 2 ^ 64 - 1 }
    ensures all { IfOk result (λ bytes. IsAll (S.left source.old) bytes.items) }
    ensures within { IfOk result (λ bytes. length bytes.items ≤ MAX_INPUT) }
    ensures unfailed { IfOk result (λ _. S.failed source.new ≡ S.failed source.old) }
    ensures err { IfErr result
        (IsRefusedBy (λ _ _. ⊥) (S.left source.old) (S.failed source.old) (S.failed source.new)) }
{
    let mut bytes = Buffer::new(alloc);
    let mut pulled = Pulls::nothing();
    while !pulled.is_ended() {
        if let Err(refusal) = bytes.pull(&mut pulled, source) {
            if refusal == Refusal::NoRoom {
                pulled.drop_rest(source)?;
            }
            return Err(refusal);
        }
    }
    Ok(bytes.into_vec())
}
