ghost use Rattle.std.specs.Prelude.{◌≡◌, ◌↔◌, ◌+◌, IfOk, IsErrOf, None, Some, false, length, option_map, true};
ghost use Rattle.server_core.specs.CommandTable.{published, trace_of, while_none_doomed, with_trace};
ghost use Rattle.server_core.specs.Decided.{Fits, IsNext, change_made};
ghost use Rattle.server_core.specs.Rooms.{IsBlock};
ghost use Rattle.server_core.specs.ServerState.{IsSound, entry_of, traceable_of};

use crate::answers::{next_generation, published};
use crate::change::Change;
use crate::command::{Applied, Reply};
use crate::fault::ApplyFault;
use crate::functions::function_named;
use crate::server::Server;
use term_core::{AreaRef, CodeRef, Mfa, NoMemory};

impl Server {
    /// A breakpoint in the current code is to be set, or taken away.
    pub(crate) fn decide_trace(&self, target: Mfa, on: bool) -> Result<Change, ApplyFault>
        ensures ok { IfOk result (λ change. while_none_doomed self.now (Some (trace_of self.now on (traceable_of self.now target))) ≡ Some (change_made self.now change)) }
        ensures fits { IfOk result (Fits self.now) }
        ensures not_enabled { IsErrOf result ApplyFault.NotEnabled ↔ (while_none_doomed self.now (Some (trace_of self.now on (traceable_of self.now target))) ≡ None) }
    {
        if self.is_purging() {
            return Err(ApplyFault::NotEnabled);
        }
        let Some(at) = self.traceable(target) else {
            return Ok(Change::Nothing(Reply::False));
        };
        if self.traced(at) == on {
            return Ok(Change::Nothing(Reply::True));
        }
        Ok(self.decide_change(at, on)?)
    }

    /// The function, exported or local, of the module's current instance.
    fn traceable(&self, to: Mfa) -> Option<CodeRef>
        ensures { option_map entry_of result ≡ traceable_of self.now to }
    {
        let current = self.versions.current(to.module)?;
        let function = function_named(self.areas.code(current)?, to)?;
        Some(CodeRef {
            area: AreaRef {
                serial: current,
                block: 0,
            },
            function: function as u32,
        })
    }

    /// The room for a breakpoint that is to be set, or none where it is to be taken away.
    fn decide_change(&self, at: CodeRef, on: bool) -> Result<Change, NoMemory>
        ensures ok { IfOk result (λ change. published (with_trace self.now (entry_of at) on) Reply.True ≡ change_made self.now change) }
        ensures fits { IfOk result (Fits self.now) }
    {
        let generation = next_generation(self.generation)?;
        if on {
            let traced = self.traced.room(self.alloc)?;
            Ok(Change::SetTrace {
                generation,
                at,
                traced,
            })
        } else {
            Ok(Change::ClearTrace { generation, at })
        }
    }

    /// A breakpoint is set, and the generation is published.
    pub(crate) fn set_trace(
        &mut self,
        generation: u64,
        at: CodeRef,
        traced: Vec<CodeRef>,
    ) -> Applied
        requires next { IsNext self.old generation }
        requires room { IsBlock (length self.old.traced + 1) traced }
        ensures value { published (with_trace self.old (entry_of at) true) Reply.True ≡ record { state = self.new; answer = result } }
        ensures sound { IsSound self.new }
    {
        self.traced.push(at, traced);
        self.generation = generation;
        published(Reply::True, generation)
    }

    /// A breakpoint is taken away, and the generation is published.
    pub(crate) fn clear_trace(&mut self, generation: u64, at: CodeRef) -> Applied
        requires next { IsNext self.old generation }
        ensures value { published (with_trace self.old (entry_of at) false) Reply.True ≡ record { state = self.new; answer = result } }
        ensures sound { IsSound self.new }
    {
        self.traced.remove(at);
        self.generation = generation;
        published(Reply::True, generation)
    }
}
