//! What the one writer of the shared words changes them by.

ghost use Rattle.std.specs.Prelude.{◌≡◌, IfOk};
ghost use Rattle.atomic_table.specs.Seated.{TableId};
ghost use Rattle.shared_words.specs.declared.opening.Opening.{Opening};
ghost use Rattle.progress_words.specs.Tokens.{IsWriterOf, written_by};
ghost use Rattle.server_core.specs.ServerState.{empty_state};
ghost use Rattle.code_index.specs.Staging.{IsAtFirst};
ghost use Rattle.staging.specs.Stages.{AreAtRest};
ghost use Rattle.staging.specs.Whose.{AreTablesOf};

use breakpoints::Patch;
use code_index::CodeIndex;
use export_table::ExportTable;
use literal_areas::Pools;
use shared_words::Writer;
use std::alloc::Global;
use term_core::NoMemory;
use term_table::TermTable;

/// The writer's token, the names of functions by their numbers, and the tables that the writer alone has. They are made before its first step.
#[derive(Drop)]
pub struct Tables {
    pub writer: Writer,
    pub exports: ExportTable,
    pub index: CodeIndex,
    pub terms: TermTable,
    pub pools: Pools,
    /// How far the switch of a breakpoint is, if one is under way.
    pub patch: Option<Patch>,
}

impl Tables {
    /// The tables of a writer who has made no step: no block is in use, and nothing is staged.
    #[tactic(auto, using(crate::proofs::AtFirst::breakpoints_first))]
    pub fn new(alloc: Global, writer: Writer, exports: ExportTable) -> Result<Tables, NoMemory>
        requires first { IsAtFirst (written_by writer) }
        ensures writer { IfOk result (λ tables. tables.writer ≡ writer) }
        ensures exports { IfOk result (λ tables. tables.exports ≡ exports) }
        ensures tables { (table : TableId) (opening : Opening) → IsWriterOf table opening writer → IfOk result (λ tables. AreTablesOf table opening tables) }
        ensures rest { IfOk result (λ tables. AreAtRest exports empty_state tables) }
    {
        let index = CodeIndex::new();
        let terms = TermTable::new();
        let pools = Pools::new(alloc)?;
        Ok(Tables {
            writer,
            exports,
            index,
            terms,
            pools,
            patch: None,
        })
    }
}
