//! Serials in slots. Each has a place of its own, by which it is found in one step.

ghost use Rattle.std.specs.Prelude.{◌≡◌, ◌<◌, ◌≤◌, ◌+◌, [], ◌∷◌, ◌++◌, IfOk, IfSome, None, Some, false, length, map, slice_get, vec_capacity, vec_len, ℕ};
ghost use Rattle.server_core.specs.CommandTable.{without_number};
ghost use Rattle.server_core.specs.RetiredSlots.{HasRetiredRoom, IsNextFull, IsSlotTable, TellSlots, serials_in, standing};
ghost use Rattle.server_core.specs.Rooms.{IsBlock};
ghost use Rattle.server_core.specs.ServerState.{is_serial_in, serial_behind};

use std::alloc::Global;
use term_core::NoMemory;

/// Room for one serial more.
///
/// Both blocks are taken by whoever decides a change, and may be dropped unused when it is made.
#[derive(Drop)]
pub struct RetiredRoom {
    pub slots: Vec<Option<u64>>,
    pub places: Vec<usize>,
}

/// Serials, none twice, in the order in which they came. One that goes leaves a gap.
///
/// To find one, to take one out and to find the oldest take no longer where there are more of them.
#[derive(Drop)]
pub struct SlotTable {
    /// In order. A gap is none.
    pub slots: Vec<Option<u64>>,
    /// Of each serial, the slot in which it stood last.
    pub places: Vec<usize>,
    /// The first slot that is no gap, or the end.
    pub first: usize,
    /// How many slots are no gaps.
    pub count: usize,
}

impl SlotTable {
    /// No serials. It takes no memory.
    pub fn new(alloc: Global) -> SlotTable
        ensures table { IsSlotTable result }
        ensures none { result.slots.items ≡ [] }
    {
        SlotTable {
            slots: Vec::new(alloc),
            places: Vec::new(alloc),
            first: 0,
            count: 0,
        }
    }

    /// The slot in which the serial stands.
    pub fn slot_of(&self, serial: u64) -> Option<usize>
        requires { IsSlotTable self.now }
        ensures some { IfSome result (λ slot. slice_get self.now.slots.items slot ≡ Some (Some serial)) }
        ensures none { result ≡ None → is_serial_in (serials_in self.now.slots.items) serial ≡ false }
    {
        let slot = *self.places.get(serial as usize)?;
        if serial_at(self.slots.as_slice(), slot) == Some(serial) {
            Some(slot)
        } else {
            None
        }
    }

    /// The serial that came first.
    pub fn oldest(&self) -> Option<u64>
        requires { IsSlotTable self.now }
        ensures { result ≡ slice_get (serials_in self.now.slots.items) 0 }
    {
        serial_at(self.slots.as_slice(), self.first)
    }

    /// The serial that came next behind this one.
    pub fn behind(&self, serial: u64) -> Option<u64>
        requires { IsSlotTable self.now }
        ensures { result ≡ serial_behind (serials_in self.now.slots.items) serial }
    {
        let slot = self.slot_of(serial)?;
        let next = next_full(self.slots.as_slice(), slot + 1);
        serial_at(self.slots.as_slice(), next)
    }

    /// Two blocks, each twice as large as it must be, so that few moves are made.
    pub fn room(&self, alloc: Global, below: usize) -> Result<RetiredRoom, NoMemory>
        requires { IsSlotTable self.now }
        ensures { IfOk result (HasRetiredRoom (length (serials_in self.now.slots.items)) below) }
    {
        let wanted = self.count.checked_add(1).ok_or(NoMemory)?;
        let slots = Vec::with_capacity(alloc, twice(wanted)?)?;
        let places = Vec::with_capacity(alloc, twice(below)?)?;
        Ok(RetiredRoom { slots, places })
    }

    /// Makes a slot free. Where all are in use, the serials move into the block, and the gaps go.
    pub fn make_slot(&mut self, block: Vec<Option<u64>>)
        requires table { IsSlotTable self.old }
        requires block { IsBlock (length (serials_in self.old.slots.items) + 1) block }
        ensures table { IsSlotTable self.new }
        ensures same { serials_in self.new.slots.items ≡ serials_in self.old.slots.items }
        ensures room { vec_len self.new.slots < vec_capacity self.new.slots }
    {
        if self.slots.len() == self.slots.capacity() {
            self.slots = close_gaps(self.slots.as_slice(), self.places.as_mut_slice(), block);
            self.first = 0;
        }
    }

    /// Makes a place for the serial. Where there is no room for it, the places move into the block.
    pub fn make_place(&mut self, serial: u64, block: Vec<usize>)
        requires table { IsSlotTable self.old }
        requires block { IsBlock (serial + 1) block }
        ensures table { IsSlotTable self.new }
        ensures slots { self.new.slots ≡ self.old.slots }
        ensures place { serial < vec_len self.new.places }
    {
        reach(&mut self.places, serial as usize, block);
    }

    /// The serial comes into a slot behind all others.
    pub fn put(&mut self, serial: u64)
        requires table { IsSlotTable self.old }
        requires fresh { is_serial_in (serials_in self.old.slots.items) serial ≡ false }
        requires slot { vec_len self.old.slots < vec_capacity self.old.slots }
        requires place { serial < vec_len self.old.places }
        ensures table { IsSlotTable self.new }
        ensures serials { serials_in self.new.slots.items ≡ serials_in self.old.slots.items ++ serial ∷ [] }
    {
        put_behind(&mut self.slots, self.places.as_mut_slice(), serial);
        self.count += 1;
    }

    /// The slot of the serial is a gap from now on.
    pub fn clear(&mut self, slot: usize, serial: u64)
        requires table { IsSlotTable self.old }
        requires there { slice_get self.old.slots.items slot ≡ Some (Some serial) }
        ensures table { IsSlotTable self.new }
        ensures serials { serials_in self.new.slots.items ≡ without_number serial (serials_in self.old.slots.items) }
    {
        self.slots[slot] = None;
        self.first = next_full(self.slots.as_slice(), self.first);
        self.count -= 1;
    }
}

/// The serial that stands in the slot. None for a gap, and behind the end.
fn serial_at(slots: &[Option<u64>], slot: usize) -> Option<u64>
    ensures { result ≡ standing slots.now slot }
{
    *slots.get(slot)?
}

/// The first slot from this one on that is no gap, or the end.
fn next_full(slots: &[Option<u64>], from: usize) -> usize
    requires { from ≤ length slots.now }
    ensures { IsNextFull slots.now from result }
{
    for slot in from..slots.len() {
        if slots[slot].is_some() {
            return slot;
        }
    }
    slots.len()
}

/// Twice as much.
fn twice(wanted: usize) -> Result<usize, NoMemory>
    ensures { IfOk result (λ size. wanted ≤ size) }
{
    wanted.checked_mul(2).ok_or(NoMemory)
}

/// The serials of these slots in the block, without the gaps between them.
fn close_gaps(
    slots: &[Option<u64>],
    places: &mut [usize],
    mut block: Vec<Option<u64>>,
) -> Vec<Option<u64>>
    requires places { TellSlots slots.now places.old }
    requires block { IsBlock (length (serials_in slots.now) + 1) block }
    ensures items { result.items ≡ map Some (serials_in slots.now) }
    ensures places { TellSlots result.items places.new }
    ensures length { length places.new ≡ length places.old }
    ensures room { vec_len result < vec_capacity result }
{
    for slot in slots {
        if let Some(serial) = slot {
            put_behind(&mut block, places, *serial);
        }
    }
    block
}

/// The serial comes into a slot behind all others, which its place tells.
fn put_behind(slots: &mut Vec<Option<u64>>, places: &mut [usize], serial: u64)
    requires places { TellSlots slots.old.items places.old }
    requires fresh { is_serial_in (serials_in slots.old.items) serial ≡ false }
    requires slot { vec_len slots.old < vec_capacity slots.old }
    requires place { serial < length places.old }
    ensures items { slots.new.items ≡ slots.old.items ++ Some serial ∷ [] }
    ensures capacity { vec_capacity slots.new ≡ vec_capacity slots.old }
    ensures places { TellSlots slots.new.items places.new }
    ensures length { length places.new ≡ length places.old }
{
    places[serial as usize] = slots.len();
    slots.push_reserved(Some(serial));
}

/// Appends places up to this one.
fn reach(places: &mut Vec<usize>, last: usize, block: Vec<usize>)
    requires { IsBlock (last + 1) block }
    ensures kept { (serial slot : ℕ) → slice_get places.old.items serial ≡ Some slot → slice_get places.new.items serial ≡ Some slot }
    ensures last { last < vec_len places.new }
{
    if last < places.len() {
        return;
    }
    move_into(places, last + 1, block);
    places.resize(last + 1, 0).unwrap();
}

/// Moves the places into the block, where their own has no room for so many.
fn move_into(places: &mut Vec<usize>, wanted: usize, mut block: Vec<usize>)
    requires len { vec_len places.old ≤ wanted }
    requires block { IsBlock wanted block }
    ensures items { places.new.items ≡ places.old.items }
    ensures room { wanted ≤ vec_capacity places.new }
{
    if places.capacity() < wanted {
        block.append(places).unwrap();
        *places = block;
    }
}
