use run_log::HalfPurge;
use server_core::Server;
use span_check::Standing;

/// What is known of a log after the entries before a place.
#[derive(Drop)]
pub struct Sweep {
    /// The server after these entries.
    pub server: Server,
    /// The purge that waits, if one does.
    pub half: Option<HalfPurge>,
    /// Where each process stands, by number.
    pub standings: Vec<Standing>,
    /// How many snapshots of each observer were seen, by number.
    pub seen: Vec<usize>,
}
