ghost use Rattle.std.specs.Prelude.{◌≡◌, ◌≤◌};
ghost use Rattle.run_log.specs.Journal.{publishes, published_count};

use run_log::{Entry, EntryList};

/// How many generations an entry published: one or none.
pub fn publishes(entry: &Entry) -> u64
    ensures value { result ≡ publishes entry.now }
    ensures one { result ≤ 1 }
{
    if entry.published.is_some() { 1 } else { 0 }
}

/// How many generations the entries of a journal published.
pub fn published_count(journal: &EntryList) -> u64
    ensures { result ≡ published_count journal.now }
{
    let mut count = 0;
    for entry in journal.as_slice() {
        count += publishes(entry);
    }
    count
}
