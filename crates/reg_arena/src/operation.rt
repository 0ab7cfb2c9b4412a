//! The operation of a call.
ghost use Rattle.std.specs.Prelude.{◌≡◌, ◌<◌, Some, length};
ghost use Rattle.history_model.specs.Operations.{is_a_reply, kind_in};
ghost use Rattle.history_model.specs.declared.operation.Operation.{Operation};
ghost use Rattle.history_model.specs.declared.ids.EvId.{EvId as AnEvId};
ghost use Rattle.history_model.specs.declared.ids.Oper.TheVariants.{Called};
ghost use Rattle.history_model.specs.Naming.{IsNamed, IsOper, op_shown};
ghost use Rattle.history_model.specs.Walking.{IsReplyOf};

use crate::arena::Arena;
use history_model::{EvId, Op, RegId, What};
use history_text::OpKind;

impl Arena {
    /// The operation of the call at `id`, which has a kind and a register.
    pub(crate) fn called(&self, id: EvId) -> Op
        requires { IsOper self.now (Called id) }
        ensures { (o : Operation) × IsNamed self.now (Called id) o × (result ≡ op_shown o) }
    {
        let event = self.event(id);
        let kind = kind_of(event.what);
        let (reply, value) = match self.reply_to(id) {
            None => (None, event.value),
            Some(reply) => match kind {
                OpKind::ReadOp => (Some(reply.time()), self.event(reply).value),
                OpKind::WriteOp => (Some(reply.time()), event.value),
            },
        };
        Op {
            line: event.line,
            call: id.time(),
            reply,
            process: Some(event.process),
            register: event.register.unwrap_or(RegId(0)),
            kind,
            value,
        }
    }

    /// The reply to the call at `id`: the next event of its process, if that is a reply.
    fn reply_to(&self, id: EvId) -> Option<EvId>
        requires { id.0 < length self.now.events }
        ensures reply { IsReplyOf self.now.events id.0 result }
        ensures within { (j : AnEvId) → result ≡ Some j → j.0 < length self.now.events }
    {
        let next = self.next_in_process(id)?;
        if is_reply(self.event(next).what) {
            Some(next)
        } else {
            None
        }
    }
}

fn is_reply(what: What) -> bool
    ensures { result ≡ is_a_reply what }
{
    match what {
        What::Reply(_) => true,
        What::Call(_) | What::Fail(_) | What::Crash => false,
    }
}

/// The kind of the call; a crash has none, and is never asked for it.
fn kind_of(what: What) -> OpKind
    ensures { result ≡ kind_in what }
{
    match what {
        What::Call(kind) | What::Reply(kind) | What::Fail(kind) => kind,
        What::Crash => OpKind::ReadOp,
    }
}
