//! The call by which a change is staged.

ghost use Rattle.std.specs.Prelude.{◌≡◌, ◌↔◌, length, IsErrOf, OnOk, OnErr};
ghost use Rattle.area_core.specs.declared.table.Published.{Published};
ghost use Rattle.progress_words.specs.declared.answers.NotYet.{NotYet};
ghost use Rattle.progress_words.specs.Tokens.{written_by, IsWriterOf, IsSameWriter};
ghost use Rattle.term_table.specs.declared.answers.StageFault.TheVariants as faults;
ghost use Rattle.term_table.specs.declared.places.TheConstants.{MOST_KEYS};
ghost use Rattle.term_table.specs.Keys.{ChangesTo, IsNewKey};
ghost use Rattle.progress_words.specs.Roots.{newest_of};
ghost use Rattle.term_table.specs.Tables.{IsTableOf, Stages};
ghost use Rattle.term_table.specs.Staged.{HasStaged, IsWaiting};

use crate::answers::StageFault;
use crate::change::Change;
use crate::copying::{load_table, store_table};
use crate::places::TERM_TABLES;
use crate::rebuilding::{is_full, rebuilt};
use crate::table::TermTable;
use progress_words::{newest_root, reached};
use shared_words::{Served, Shared, Writer};

impl TermTable {
    /// Stages the keys of the newest generation with a change, in the table behind the active one, going
    /// round. `Full` comes before `NotYet`. After both nothing is changed.
    ///
    /// Source: Erlang/OTP, the manual page of persistent_term.
    pub fn stage_copy<N: Served>(
        &mut self,
        shared: &Shared<N>,
        writer: &mut Writer,
        change: Change,
    ) -> Result<(), StageFault>
        // the writer, whose the tables are
        requires token { IsWriterOf shared.now.table.shared.table_id shared.now.table.shared.key writer.old }
        requires owned { IsTableOf self.old (written_by writer.old) }
        // the same writer
        ensures token { IsWriterOf shared.now.table.shared.table_id shared.now.table.shared.key writer.new }
        ensures same { IsSameWriter writer.old writer.new }
        // what is staged
        ensures staged { OnOk result (HasStaged change self.old self.new (written_by writer.old) (written_by writer.new)) }
        ensures stands { OnOk result ((q : Published) → ChangesTo change (newest_of (written_by writer.old)) q → Stages self.new q (written_by writer.new)) }
        // why nothing is
        ensures full { IsErrOf result faults.Full ↔ (IsNewKey change (newest_of (written_by writer.old)) × (length (newest_of (written_by writer.old)).state.keys ≡ MOST_KEYS)) }
        ensures full_same { IsErrOf result faults.Full → written_by writer.new ≡ written_by writer.old }
        ensures not_yet { (answer : NotYet) → IsErrOf result (faults.NotYet answer) → IsWaiting self.old (written_by writer.old) (written_by writer.new) answer }
        // what stands then
        ensures err { OnErr result (self.new ≡ self.old) }
        ensures owned { IsTableOf self.new (written_by writer.new) }
    {
        let root = newest_root(shared, writer);
        let held = load_table(shared, writer, root.term);
        if is_full(&held, change) {
            return Err(StageFault::Full);
        }
        let table = (root.term + 1) % TERM_TABLES;
        if let Err(answer) = reached(shared, writer, self.needs[table as usize]) {
            return Err(StageFault::NotYet(answer));
        }
        store_table(shared, writer, table, &rebuilt(&held, change));
        self.staged = Some(table);
        Ok(())
    }
}
