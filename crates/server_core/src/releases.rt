ghost use Rattle.std.specs.Prelude.{◌≡◌, ◌↔◌, IfOk, IsErrOf, IsTrue, None, Some, length};
ghost use Rattle.server_core.specs.CommandTable.{release_of, unchanged, with_released};
ghost use Rattle.server_core.specs.Decided.{Fits, change_made};
ghost use Rattle.server_core.specs.Rooms.{HasRoom};
ghost use Rattle.server_core.specs.ServerState.{IsSound, is_retired};

use crate::answers::unpublished;
use crate::change::Change;
use crate::command::{Applied, Reply};
use crate::fault::ApplyFault;
use crate::server::Server;

impl Server {
    /// The retired area with this serial is to be given back.
    pub(crate) fn decide_release(&self, serial: u64) -> Result<Change, ApplyFault>
        ensures ok { IfOk result (λ change. release_of self.now serial ≡ Some (change_made self.now change)) }
        ensures fits { IfOk result (Fits self.now) }
        ensures not_enabled { IsErrOf result ApplyFault.NotEnabled ↔ (release_of self.now serial ≡ None) }
    {
        if !self.retired(serial) {
            return Err(ApplyFault::NotEnabled);
        }
        let released = self.released.room(self.alloc)?;
        Ok(Change::GiveBack { serial, released })
    }

    /// The retired area with this serial is retired no more.
    pub(crate) fn give_back(&mut self, serial: u64, released: Option<Vec<u64>>) -> Applied
        requires retired { IsTrue (is_retired self.old serial) }
        requires room { HasRoom (length self.old.released) 1 released }
        ensures value { unchanged (with_released self.old serial) Reply.Ok ≡ record { state = self.new; answer = result } }
        ensures sound { IsSound self.new }
    {
        self.released.push(serial, released);
        self.retired.remove(serial);
        unpublished(Reply::Ok)
    }
}
