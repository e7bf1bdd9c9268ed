ghost use Rattle.std.specs.Prelude.{◌≡◌, ◌↔◌, option_map, slice_index, IfSome, IsErr, IsTrue, OnErr, OnOk};
ghost use Rattle.server_core.specs.ServerState.{entry_of, found_as};
ghost use Rattle.machine_core.specs.Holds.{Holds, is_area_held, is_full, is_held, with_hold, without_hold};
ghost use Rattle.machine_core.specs.View.{Shown, IsFoundInBlock, IsInBlock, IsLawful, IsReadable};
ghost use Rattle.machine_core.specs.Reads.{HasFunction, dispatched, found_of};
ghost use Rattle.machine_core.specs.Reach.{MayHold, MayRead};

use term_core::{AreaRef, AtomId, CodeRef, Found, Full, Kind, Mfa};

/// One generation of the code server, as a turn sees it.
///
/// Contracts see the state of the generation, the words of each area and in which block it stands, and what is held.
/// It is lawful where these words are, apart from entry words, the images of the instances and of the persistent terms.
/// Each area that it answers is referred to by the block in which it stands, and so must each be that it is asked for,
/// but to drop a hold.
pub trait CodeView {
    /// What the view shows. No call changes it.
    ghost shown: { Self → Shown };

    /// The areas that are held, for frames and for literals. Only `hold` and `drop_hold` change them.
    ghost held: { Self → Holds };

    /// What a call of `m:f/a` reaches.
    fn export(&mut self, to: Mfa) -> Option<CodeRef>
        requires { IsLawful (shown self.old) }
        ensures value { option_map entry_of result ≡ dispatched (shown self.old).reads to }
        ensures stands { IfSome result (λ at. IsInBlock (shown self.old) at.area) }
        ensures same { shown self.new ≡ shown self.old }
        ensures holds { held self.new ≡ held self.old };

    /// The place of a function's first instruction, in words of the image.
    fn entry(&mut self, at: CodeRef) -> u32
        requires lawful { IsLawful (shown self.old) }
        requires stands { IsInBlock (shown self.old) at.area }
        requires known { HasFunction (shown self.old).reads (entry_of at) }
        requires reached { MayHold (shown self.old).reads (held self.old) at.area.serial Kind.Frame }
        ensures value { result ≡ (shown self.old).reads.first (entry_of at) }
        ensures same { shown self.new ≡ shown self.old }
        ensures holds { held self.new ≡ held self.old };

    /// Whether calls of the function are traced.
    fn decision(&mut self, at: CodeRef) -> bool
        requires lawful { IsLawful (shown self.old) }
        requires stands { IsInBlock (shown self.old) at.area }
        requires known { HasFunction (shown self.old).reads (entry_of at) }
        requires reached { MayHold (shown self.old).reads (held self.old) at.area.serial Kind.Frame }
        ensures value { result ≡ (shown self.old).reads.traced (entry_of at) }
        ensures same { shown self.new ≡ shown self.old }
        ensures holds { held self.new ≡ held self.old };

    /// Whether the area is code that is purged, so that processes that stand in it end.
    fn doomed(&mut self, area: AreaRef) -> bool
        requires lawful { IsLawful (shown self.old) }
        requires stands { IsInBlock (shown self.old) area }
        requires named { IsTrue (is_area_held (held self.old) area.serial) }
        ensures value { result ≡ (shown self.old).reads.doomed area.serial }
        ensures same { shown self.new ≡ shown self.old }
        ensures holds { held self.new ≡ held self.old };

    /// Whether the area was dropped, so that it is released once no process names it.
    fn retired(&mut self, area: AreaRef) -> bool
        requires lawful { IsLawful (shown self.old) }
        requires stands { IsInBlock (shown self.old) area }
        requires named { IsTrue (is_area_held (held self.old) area.serial) }
        ensures value { result ≡ (shown self.old).reads.retired area.serial }
        ensures same { shown self.new ≡ shown self.old }
        ensures holds { held self.new ≡ held self.old };

    /// What a key holds: an integer or an atom by its word, a tuple or a list by its area.
    fn term(&mut self, key: AtomId) -> Found
        requires { IsLawful (shown self.old) }
        ensures value { found_as result ≡ found_of ((shown self.old).reads.key key.0) }
        ensures stands { IsFoundInBlock (shown self.old) result }
        ensures same { shown self.new ≡ shown self.old }
        ensures holds { held self.new ≡ held self.old };

    /// A word of an area. An entry word is not asked for.
    fn word(&mut self, area: AreaRef, at: u32) -> u64
        requires lawful { IsLawful (shown self.old) }
        requires stands { IsInBlock (shown self.old) area }
        requires readable { IsReadable (shown self.old) area.serial at }
        requires reached { MayRead (shown self.old).reads (held self.old) area.serial }
        ensures value { result ≡ slice_index ((shown self.old).words area.serial) at }
        ensures same { shown self.new ≡ shown self.old }
        ensures holds { held self.new ≡ held self.old };

    /// Holds the area for this, so that it is not released before the hold is dropped.
    ///
    /// `Full` comes exactly where 16 other areas are held, and then nothing changes. It takes no memory.
    fn hold(&mut self, area: AreaRef, kind: Kind) -> Result<(), Full>
        requires lawful { IsLawful (shown self.old) }
        requires stands { IsInBlock (shown self.old) area }
        requires reached { MayHold (shown self.old).reads (held self.old) area.serial kind }
        ensures full { IsErr result ↔ IsTrue (is_full (held self.old) area.serial) }
        ensures ok { OnOk result (held self.new ≡ with_hold (held self.old) area.serial kind) }
        ensures err { OnErr result (held self.new ≡ held self.old) }
        ensures same { shown self.new ≡ shown self.old };

    /// The area is held for this no more. All else stays.
    fn drop_hold(&mut self, area: AreaRef, kind: Kind)
        requires lawful { IsLawful (shown self.old) }
        requires known { IsTrue (is_held (held self.old) area.serial kind) }
        ensures dropped { held self.new ≡ without_hold (held self.old) area.serial kind }
        ensures same { shown self.new ≡ shown self.old };
}
