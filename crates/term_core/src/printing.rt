ghost use Rattle.std.specs.Prelude.{◌≡◌, [], ◌∷◌, ◌++◌, OnOk, OnErr, decimal};
ghost use Rattle.std.specs.Fmt.{signed_decimal};
ghost use Rattle.term_core.specs.PlainTerm.{row_of, map_row};
ghost use Rattle.term_core.specs.Printing.{StartsWith, comma_at};
ghost use Rattle.term_core.specs.TermText.{atom_text, term_text};
ghost use Rattle.term_core.specs.Written.{parted};

use crate::atom::AtomId;
use crate::items::ByteList;
use crate::names::Names;
use crate::no_memory::NoMemory;
use crate::term::{Term, TermList};
use itoa::Buffer;

/// Appends the text of an atom, which is empty where the table does not hold it. Where memory is refused, nothing is appended.
pub fn print_atom(names: &Names, atom: AtomId, out: &mut ByteList) -> Result<(), NoMemory>
    ensures ok { OnOk result (out.new ≡ out.old ++ atom_text names.now atom.0) }
    ensures err { OnErr result (out.new ≡ out.old) }
{
    match names.text(atom) {
        Some(text) => out.extend_from_slice(text),
        None => Ok(()),
    }
}

/// Appends a number in decimal. Where memory is refused, nothing is appended.
pub fn print_number(number: u64, out: &mut ByteList) -> Result<(), NoMemory>
    ensures ok { OnOk result (out.new ≡ out.old ++ decimal number) }
    ensures err { OnErr result (out.new ≡ out.old) }
{
    let mut buffer = Buffer::new();
    out.extend_from_slice(buffer.format(number).as_bytes())
}

fn print_integer(number: i64, out: &mut ByteList) -> Result<(), NoMemory>
    ensures ok { OnOk result (out.new ≡ out.old ++ signed_decimal number) }
    ensures err { OnErr result (out.new ≡ out.old) }
{
    let mut buffer = Buffer::new();
    out.extend_from_slice(buffer.format(number).as_bytes())
}

#[cycle(write)]
fn write_term(names: &Names, term: &Term, out: &mut ByteList) -> Result<(), NoMemory>
    ensures ok { OnOk result (out.new ≡ out.old ++ term_text names.now term.now) }
    ensures front { StartsWith out.old out.new }
{
    match term {
        Term::Int(number) => print_integer(*number, out),
        Term::Atom(atom) => print_atom(names, *atom, out),
        Term::Tuple(terms) => write_between(names, b'{', terms, b'}', out),
        Term::List(terms) => write_between(names, b'[', terms, b']', out),
    }
}

#[cycle(write)]
fn write_between(
    names: &Names,
    before: u8,
    terms: &TermList,
    behind: u8,
    out: &mut ByteList,
) -> Result<(), NoMemory>
    ensures ok { OnOk result (out.new ≡ out.old ++ before ∷ (parted (map_row signed_decimal (atom_text names.now) (row_of terms.now)) ++ behind ∷ [])) }
    ensures front { StartsWith out.old out.new }
{
    out.push(before)?;
    write_terms(names, terms, out)?;
    out.push(behind)
}

#[cycle(write)]
fn write_terms(names: &Names, terms: &TermList, out: &mut ByteList) -> Result<(), NoMemory>
    ensures ok { OnOk result (out.new ≡ out.old ++ parted (map_row signed_decimal (atom_text names.now) (row_of terms.now))) }
    ensures front { StartsWith out.old out.new }
{
    for (at, term) in terms.items.iter().enumerate() {
        write_comma(at, out)?;
        write_term(names, term, out)?;
    }
    Ok(())
}

// A comma stands in front of each term but the first.
fn write_comma(at: usize, out: &mut ByteList) -> Result<(), NoMemory>
    ensures ok { OnOk result (out.new ≡ out.old ++ comma_at at) }
    ensures err { OnErr result (out.new ≡ out.old) }
{
    if at == 0 { Ok(()) } else { out.push(b',') }
}

/// Appends the text of a term. Where memory is refused, nothing is appended.
pub fn print_term(names: &Names, term: &Term, out: &mut ByteList) -> Result<(), NoMemory>
    ensures ok { OnOk result (out.new ≡ out.old ++ term_text names.now term.now) }
    ensures err { OnErr result (out.new ≡ out.old) }
{
    let start = out.len();
    let written = write_term(names, term, out);
    if written.is_err() {
        out.truncate(start);
    }
    written
}
