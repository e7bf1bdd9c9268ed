use run_log::MfaList;
use term_core::CountList;

/// What is looked up of a script and a log, and made once; and what is watched.
#[derive(Drop)]
pub struct Known {
    /// The functions that the module texts export.
    pub functions: MfaList,
    /// The serials of the instances for which processes were killed.
    pub killed: CountList,
    /// Whether it is watched that a process lingers where a soft purge tells it.
    pub watched: bool,
}
