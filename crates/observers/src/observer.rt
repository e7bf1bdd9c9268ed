//! An observer of a run.

ghost use Rattle.std.specs.Prelude.{◌≡◌, ◌+◌, OnOk, length};
ghost use Rattle.observers.specs.Observing.{HasLooked, Observes};

use crate::shots::snapshot;
use code_law::{CodeLaw, Naming};
use export_table::ExportTable;
use run_log::{MfaList, SnapshotList};
use shared_words::{Shared, Watcher};
use std::alloc::Global;
use term_core::NoMemory;

/// An observer of a run, with the token of its watcher and what it saw so far.
#[derive(Drop)]
pub struct Observer {
    pub watcher: Watcher,
    /// How many snapshots it still takes.
    pub left: u64,
    pub shots: SnapshotList,
}

impl Observer {
    /// Takes a snapshot of the newest generation, if one is lacking: delays progress, reads the exports from the words that all threads share, and
    /// resumes. It takes memory before it delays and behind that, and none meanwhile; where memory is refused the observer is only dropped.
    ///
    /// Source: Erlang/OTP erts internal documentation, ThreadProgress and CodeLoading.
    pub fn look<K: Naming>(
        &mut self,
        alloc: Global,
        shared: &Shared<CodeLaw<K>>,
        functions: &MfaList,
        exports: &ExportTable,
    ) -> Result<(), NoMemory>
        requires exports { exports.now ≡ K.names }
        requires observes { Observes K.names functions.now shared.now.table.shared.table_id self.old }
        ensures observes { OnOk result (Observes K.names functions.now shared.now.table.shared.table_id self.new) }
        ensures looked { OnOk result (HasLooked K.names self.old self.new) }
    {
        if self.left == 0 {
            return Ok(());
        }
        let room = Vec::with_capacity(alloc, functions.len())?;
        let shot = snapshot(shared, &mut self.watcher, functions, exports, room);
        self.shots.push(shot)?;
        self.left -= 1;
        Ok(())
    }

    /// Takes all snapshots that are lacking, one after the other. Where memory is refused the observer is only dropped.
    pub fn look_on<K: Naming>(
        &mut self,
        alloc: Global,
        shared: &Shared<CodeLaw<K>>,
        functions: &MfaList,
        exports: &ExportTable,
    ) -> Result<(), NoMemory>
        requires exports { exports.now ≡ K.names }
        requires observes { Observes K.names functions.now shared.now.table.shared.table_id self.old }
        ensures observes { OnOk result (Observes K.names functions.now shared.now.table.shared.table_id self.new) }
        ensures counted { OnOk result (self.new.left + length self.new.shots ≡ self.old.left + length self.old.shots) }
        ensures over { OnOk result (self.new.left ≡ 0) }
    {
        for _shot in 0..self.left {
            self.look(alloc, shared, functions, exports)?;
        }
        Ok(())
    }
}
