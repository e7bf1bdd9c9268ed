ghost use Rattle.std.specs.Prelude.{◌≡◌, ◌==◌, ℕ, IfOk};
ghost use Rattle.std.specs.List.{list_any};
ghost use Rattle.run_log.specs.Legal.{is_killed_by};

use machine_core::End;
use run_log::RunLog;
use std::alloc::Global;
use term_core::{CountList, NoMemory};

/// The serials of the instances that processes were killed by, one for each such process.
///
/// It takes memory.
pub fn killed_serials(alloc: Global, log: &RunLog) -> Result<CountList, NoMemory>
    ensures { IfOk result (λ serials. (serial : ℕ) → list_any (λ by. by == serial) serials ≡ list_any (λ process. is_killed_by serial process.fin) log.now.processes) }
{
    let mut serials = CountList::new(alloc);
    for process in log.processes.as_slice() {
        if let End::Killed(serial) = process.fin {
            serials.push(serial)?;
        }
    }
    Ok(serials)
}

/// Whether the serial is one of these.
pub fn is_killed(serials: &CountList, serial: u64) -> bool
    ensures { result ≡ list_any (λ by. by == serial) serials.now }
{
    serials.as_slice().iter().any(|by| *by == serial)
}
