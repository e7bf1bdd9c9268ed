ghost use Rattle.std.specs.Prelude.{◌≡◌, Some, None, if◌then◌else◌, IfOk, OnOk};
ghost use Rattle.term_core.specs.Scanning.{begun, closed, ended, after_digit, named, after_name, after_open, after_minus, next, moved, stepped, is_end_place, syntax_fault, at_start};

use crate::byte_kind::{Bracket, ByteKind, kind_of};
use crate::names::LONGEST_ATOM;
use crate::no_memory::NoMemory;
use crate::stack::Stack;
use std::alloc::Global;

/// What was read last.
#[derive(Clone, Copy, Debug, PartialEq, Eq)]
pub(crate) enum Place {
    /// Nothing, or a comma.
    TermStart,
    AfterOpen,
    AfterMinus,
    /// A digit of an integer that may have more.
    InDigits,
    /// So many bytes of an atom.
    InName(usize),
    /// A term that is whole: `0`, a tuple or a list.
    AfterTerm,
}

/// Where one byte leads.
#[derive(Clone, Copy, Debug, PartialEq, Eq)]
pub(crate) enum Move {
    To(Place),
    /// A bracket is opened.
    Push(Bracket),
    /// The innermost open bracket is closed.
    Pop,
}

fn begun(kind: ByteKind) -> Option<Move>
    ensures { result ≡ begun kind }
{
    match kind {
        ByteKind::Open(bracket) => Some(Move::Push(bracket)),
        ByteKind::Minus => Some(Move::To(Place::AfterMinus)),
        ByteKind::Zero => Some(Move::To(Place::AfterTerm)),
        ByteKind::Digit => Some(Move::To(Place::InDigits)),
        ByteKind::Letter => Some(Move::To(Place::InName(1))),
        _ => None,
    }
}

fn closed(top: Option<Bracket>, bracket: Bracket) -> Option<Move>
    ensures { result ≡ closed top bracket }
{
    match (top, bracket) {
        (Some(Bracket::Curly), Bracket::Curly) => Some(Move::Pop),
        (Some(Bracket::Square), Bracket::Square) => Some(Move::Pop),
        _ => None,
    }
}

fn ended(top: Option<Bracket>, kind: ByteKind) -> Option<Move>
    ensures { result ≡ ended top kind }
{
    match (top, kind) {
        (_, ByteKind::Close(bracket)) => closed(top, bracket),
        (Some(_), ByteKind::Comma) => Some(Move::To(Place::TermStart)),
        _ => None,
    }
}

fn after_digit(top: Option<Bracket>, kind: ByteKind) -> Option<Move>
    ensures { result ≡ after_digit top kind }
{
    match kind {
        ByteKind::Zero | ByteKind::Digit => Some(Move::To(Place::InDigits)),
        _ => ended(top, kind),
    }
}

fn named(count: usize) -> Option<Move>
    ensures { result ≡ named count }
{
    if count < LONGEST_ATOM {
        Some(Move::To(Place::InName(count + 1)))
    } else {
        None
    }
}

fn after_name(top: Option<Bracket>, count: usize, kind: ByteKind) -> Option<Move>
    ensures { result ≡ after_name top count kind }
{
    match kind {
        ByteKind::Zero | ByteKind::Digit | ByteKind::Letter | ByteKind::NameByte => named(count),
        _ => ended(top, kind),
    }
}

fn after_open(top: Option<Bracket>, kind: ByteKind) -> Option<Move>
    ensures { result ≡ after_open top kind }
{
    match kind {
        ByteKind::Close(bracket) => closed(top, bracket),
        _ => begun(kind),
    }
}

fn after_minus(kind: ByteKind) -> Option<Move>
    ensures { result ≡ after_minus kind }
{
    match kind {
        ByteKind::Digit => Some(Move::To(Place::InDigits)),
        _ => None,
    }
}

fn next(place: Place, top: Option<Bracket>, kind: ByteKind) -> Option<Move>
    ensures { result ≡ next place top kind }
{
    match place {
        Place::TermStart => begun(kind),
        Place::AfterOpen => after_open(top, kind),
        Place::AfterMinus => after_minus(kind),
        Place::InDigits => after_digit(top, kind),
        Place::InName(count) => after_name(top, count, kind),
        Place::AfterTerm => ended(top, kind),
    }
}

fn is_end_place(place: Place) -> bool
    ensures { result ≡ is_end_place place }
{
    matches!(place, Place::InDigits | Place::InName(_) | Place::AfterTerm)
}

/// The scan of a text that may be a term's.
#[derive(Drop)]
struct Scan {
    place: Place,
    brackets: Stack<Bracket>,
}

fn make_move(scan: &mut Scan, step: Move) -> Result<(), NoMemory>
    ensures { OnOk result (record { place = scan.new.place; brackets = scan.new.brackets } ≡ moved scan.old.brackets step) }
{
    match step {
        Move::To(place) => scan.place = place,
        Move::Push(bracket) => {
            scan.brackets.push(bracket)?;
            scan.place = Place::AfterOpen;
        }
        Move::Pop => {
            let _ = scan.brackets.pop();
            scan.place = Place::AfterTerm;
        }
    }
    Ok(())
}

// Whether some term's text goes on with this byte.
fn take_byte(scan: &mut Scan, byte: u8) -> Result<bool, NoMemory>
    ensures { IfOk result (λ goes_on. stepped scan.old.place scan.old.brackets byte ≡ (if goes_on then Some (record { place = scan.new.place; brackets = scan.new.brackets }) else None)) }
{
    match next(scan.place, scan.brackets.top(), kind_of(byte)) {
        Some(step) => {
            make_move(scan, step)?;
            Ok(true)
        }
        None => Ok(false),
    }
}

/// The place of the first byte with which no term's text goes on, or the text's length where it only stops too early. None of the text of a term with numbers of any size.
///
/// It takes memory: a few bytes for each open bracket.
pub(crate) fn syntax_fault(alloc: Global, text: &[u8]) -> Result<Option<usize>, NoMemory>
    ensures { IfOk result (λ fault. fault ≡ syntax_fault at_start text.now) }
{
    let mut scan = Scan {
        place: Place::TermStart,
        brackets: Stack::new(alloc),
    };
    for (at, byte) in text.iter().enumerate() {
        if !take_byte(&mut scan, *byte)? {
            return Ok(Some(at));
        }
    }
    if scan.brackets.is_empty() && is_end_place(scan.place) {
        Ok(None)
    } else {
        Ok(Some(text.len()))
    }
}
