ghost use Rattle.std.specs.Prelude.{◌≡◌};
ghost use Rattle.run_log.specs.Journal.{published_count};

use crate::logs::EntryList;

/// How many generations the entries of a journal published.
pub fn published_count(journal: &EntryList) -> u64
    ensures { result ≡ published_count journal.now }
{
    let mut count = 0;
    for entry in journal.as_slice() {
        if entry.published.is_some() {
            count += 1;
        }
    }
    count
}
