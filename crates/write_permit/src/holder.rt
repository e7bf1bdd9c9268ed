ghost use Rattle.std.specs.Prelude.{◌≡◌};
ghost use Rattle.write_permit.specs.Permit.{given_up};

use term_core::AtomId;

/// Who has the permission to change the code, and how far its command is.
#[derive(Clone, Copy, Debug, PartialEq, Eq)]
pub enum Holder {
    /// Nobody has it.
    Free,
    /// This loader has it, and nothing of its command is in the journal.
    Held(u32),
    /// This loader has it. The old code of the module is doomed, and its purge waits for the second half.
    Purging { loader: u32, module: AtomId },
    /// This loader has it. The entry of its trace is in the journal with the generation that it published, and the breakpoint is not switched throughout yet.
    Tracing { loader: u32, generation: u64 },
}

/// Who has it after want of memory: a loader gives it up where nothing of its command is in the journal.
pub fn given_up(holder: Holder) -> Holder
    ensures { result ≡ given_up holder }
{
    match holder {
        Holder::Free => Holder::Free,
        Holder::Held(_) => Holder::Free,
        Holder::Purging { loader, module } => Holder::Purging { loader, module },
        Holder::Tracing { loader, generation } => Holder::Tracing { loader, generation },
    }
}
