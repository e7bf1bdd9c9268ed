ghost use Rattle.std.specs.Prelude.{◌≡◌, ◌≤◌, IfOk, not, ◌==◌, ◌&&◌, filter, length};
ghost use Rattle.machine_core.specs.Holds.{IsIncreasing, area_count, is_among, other_areas, serials_of, without_serial};
ghost use Rattle.machine_core.specs.Process.{area_serials, names_of, process_of};
ghost use Rattle.machine_core.specs.View.{IsLawful, server_words, shown_of};

use crate::areas::areas_of;
use crate::layout::{HEAD_LEN, PLACE_WORD, TABLE_PLACE};
use crate::process::Process;
use crate::serials::SerialList;
use crate::view::CodeView;
use server_core::Server;
use std::alloc::Global;
use std::marker::Model;
use term_core::{AreaRef, AtomId, CodeRef, Found, Full, Kind, MOST_AREAS, Mfa, NoMemory};

/// The block in which all areas of the plain server stand.
const PLAIN_BLOCK: u32 = 0;

/// The view over the plain server, whose state nothing changes meanwhile. Contracts see that state and what is held.
#[derive(Drop)]
pub struct PlainView<'a> {
    server: &'a Server,
    frames: SerialList,
    literals: SerialList,
}

impl<'a> Model for PlainView<'a> {
    ghost use Rattle.std.specs.Coded.{codes};
    ghost use Rattle.mod_core.specs.contracts.code.Module as module_contracts;
    ghost use Rattle.term_core.specs.TermCode.{plain_term_code};
    ghost use Rattle.machine_core.specs.View.{Viewed};

    ghost Value = { Viewed };

    ghost coded = { Prim.hlevel (codes, plain_term_code, module_contracts.the_row.coded) };

    ghost view = { λ v. record { state = v.server.now; held = record { frames = v.frames; literals = v.literals } } };
}

impl<'a> PlainView<'a> {
    /// The view of the server's newest generation for a turn of this process, whose names it holds.
    ///
    /// It takes memory for all that the turn may hold.
    pub fn new(
        alloc: Global,
        server: &'a Server,
        process: &Process,
    ) -> Result<PlainView<'a>, NoMemory>
        requires { area_count (names_of (process_of (server_words server.now) process.now)) ≤ MOST_AREAS }
        ensures state { IfOk result (λ view. view.state ≡ server.now) }
        ensures held { IfOk result (λ view. view.held ≡ names_of (process_of (server_words server.now) process.now)) }
        ensures lawful { IfOk result (λ view. IsLawful (shown_of view.state)) }
    {
        let _generation = server.generation();
        let areas = areas_of(alloc, process.frames.as_slice())?;
        let frames = serials_in(alloc, areas.frames.as_slice())?;
        let literals = serials_in(alloc, areas.literals.as_slice())?;
        Ok(PlainView {
            server,
            frames,
            literals,
        })
    }

    /// The number of the generation that it shows.
    pub fn generation(&self) -> u64
        ensures { result ≡ self.now.state.generation }
    {
        self.server.generation()
    }

    /// How many other areas are held.
    fn other_areas(&self, serial: u64) -> usize
        ensures value { result ≡ other_areas self.now.held serial }
        ensures increasing { IsIncreasing self.now.held.literals }
    {
        other_serials(self.frames.as_slice(), serial)
            + other_literals(&self.frames, self.literals.as_slice(), serial)
    }
}

/// The serials of the areas.
fn serials_in(alloc: Global, areas: &[AreaRef]) -> Result<SerialList, NoMemory>
    requires { length (serials_of (area_serials areas.now)) ≤ MOST_AREAS }
    ensures { IfOk result (λ serials. serials ≡ serials_of (area_serials areas.now)) }
{
    let mut serials = SerialList::new(alloc)?;
    for area in areas {
        serials.insert(area.serial);
    }
    Ok(serials)
}

/// How many serials there are besides this one.
fn other_serials(serials: &[u64], serial: u64) -> usize
    ensures value { result ≡ length (without_serial serials.now serial) }
    ensures bound { result ≤ length serials.now }
{
    serials.iter().filter(|held| **held != serial).count()
}

/// How many serials there are besides this one that are not among the frames'.
fn other_literals(frames: &SerialList, serials: &[u64], serial: u64) -> usize
    ensures value { result ≡ length (filter (λ n. not (n == serial) && not (is_among frames.now n)) serials.now) }
    ensures bound { result ≤ length serials.now }
{
    serials
        .iter()
        .filter(|held| **held != serial && !frames.contains(**held))
        .count()
}

/// The area in the block in which the plain server has them all.
fn plain_area(area: AreaRef) -> AreaRef
    ensures serial { result.serial ≡ area.serial }
    ensures block { result.block ≡ 0 }
{
    AreaRef {
        serial: area.serial,
        block: PLAIN_BLOCK,
    }
}

impl<'a> CodeView for PlainView<'a> {
    ghost shown = { λ view. shown_of view.state };

    ghost held = { λ view. view.held };

    fn export(&mut self, to: Mfa) -> Option<CodeRef> {
        let code = self.server.dispatch(to)?;
        Some(CodeRef {
            area: plain_area(code.area),
            function: code.function,
        })
    }

    fn entry(&mut self, at: CodeRef) -> u32 {
        let place = TABLE_PLACE + HEAD_LEN * at.function + PLACE_WORD;
        self.server.word(at.area, place).unwrap_or(0) as u32
    }

    fn decision(&mut self, at: CodeRef) -> bool {
        self.server.traced(at)
    }

    fn doomed(&mut self, area: AreaRef) -> bool {
        self.server.doomed(area.serial)
    }

    fn retired(&mut self, area: AreaRef) -> bool {
        self.server.retired(area.serial)
    }

    fn term(&mut self, key: AtomId) -> Found {
        match self.server.term(key) {
            Found::Area(area) => Found::Area(plain_area(area)),
            found => found,
        }
    }

    fn word(&mut self, area: AreaRef, at: u32) -> u64 {
        self.server.word(area, at).unwrap_or(0)
    }

    fn hold(&mut self, area: AreaRef, kind: Kind) -> Result<(), Full> {
        if self.other_areas(area.serial) >= MOST_AREAS {
            return Err(Full);
        }
        match kind {
            Kind::Frame => self.frames.insert(area.serial),
            Kind::Literal => self.literals.insert(area.serial),
        }
        Ok(())
    }

    fn drop_hold(&mut self, area: AreaRef, kind: Kind) {
        match kind {
            Kind::Frame => self.frames.remove(area.serial),
            Kind::Literal => self.literals.remove(area.serial),
        }
    }
}
