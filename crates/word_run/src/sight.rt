//! What every slice of a round is given beside the words.

use export_table::ExportTable;

/// What every slice of a round is given beside the words.
#[derive(Drop)]
pub struct Sight {
    /// The names of functions by their numbers.
    pub exports: ExportTable,
    /// How many loaders the script has.
    pub loaders: u32,
}
