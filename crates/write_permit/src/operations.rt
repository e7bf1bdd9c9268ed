ghost use Rattle.std.specs.Prelude.{◌≡◌, ◌<◌, [], length, slice_get, slice_set, IsSome, IsSomeAnd, Some, option_map};
ghost use Rattle.write_permit.specs.Book.{IsBook, shown};
ghost use Rattle.write_permit.specs.Permit.{advanced, loader_after, next_of, settled};

use crate::book::Book;
use crate::commands::is_spawn;
use crate::holder::Holder;
use crate::loader_run::LoaderRun;
use crate::steps::{count, next_command};
use server_core::{Applied, Reply};

/// How far a loader is once its next command is done.
pub fn after_next(book: &Book, who: u32) -> LoaderRun
    requires book { IsBook book.now }
    requires next { IsSome (next_of (shown book.now) who) }
    ensures counted { IsSomeAnd (next_of (shown book.now) who) (λ command. option_map (loader_after command) (slice_get book.now.loaders.items who) ≡ Some result) }
    ensures there { who < length book.now.loaders.items }
{
    let Some(command) = next_command(book, who) else {
        unreachable!()
    };
    let mut after = book.loaders[who as usize];
    count(&mut after, is_spawn(command));
    after
}

/// The loader is this far, and nobody has the permission.
pub fn set_free(book: &mut Book, who: u32, after: LoaderRun)
    requires { who < length book.old.loaders.items }
    ensures state { shown book.new ≡ record (shown book.old) { loaders = slice_set book.old.loaders.items who after; holder = Holder.Free } }
    ensures table { book.new.modules ≡ book.old.modules }
{
    book.loaders[who as usize] = after;
    book.holder = Holder::Free;
}

/// The loader's trace waits: its entry, which published this generation, is in the journal.
pub fn set_tracing(book: &mut Book, who: u32, generation: u64)
    ensures state { shown book.new ≡ record (shown book.old) { holder = Holder.Tracing who generation } }
    ensures table { book.new.modules ≡ book.old.modules }
{
    book.holder = Holder::Tracing {
        loader: who,
        generation,
    };
}

/// The loader's trace that waits is done, and nobody has the permission. The answer is that of its entry.
pub fn settle(book: &mut Book, who: u32, generation: u64) -> Applied
    requires book { IsBook book.old }
    requires tracing { book.old.holder ≡ Holder.Tracing who generation }
    ensures ok { advanced (shown book.old) [] who book.old.holder ≡ Some (record { state = shown book.new; answer = result }) }
    ensures answer { result ≡ record { reply = Reply.True; published = Some generation } }
    ensures state { shown book.new ≡ (settled (shown book.old) who generation).state }
    ensures table { book.new.modules ≡ book.old.modules }
    ensures book { IsBook book.new }
{
    let after = after_next(book, who);
    set_free(book, who, after);
    Applied {
        reply: Reply::True,
        published: Some(generation),
    }
}
