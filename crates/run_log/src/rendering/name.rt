//! The text of function names, calls and lists of terms or atoms.

ghost use Rattle.std.specs.Prelude.{◌≡◌, ◌∷◌, ◌++◌, map, OnOk};
ghost use Rattle.std.specs.List.{flat_map, join_with_byte};
ghost use Rattle.std.specs.Io.{StartsWith};
ghost use Rattle.term_core.specs.TermText.{atom_text, term_text};
ghost use Rattle.run_log.specs.Report.{mfa_text, call_text};

use term_core::{
    AtomId, AtomList, ByteList, Mfa, Names, NoMemory, Term, TermList, print_atom, print_number,
    print_term,
};

/// Appends `m:f/a`. After a refusal a part of it may stand.
pub fn write_mfa(names: &Names, to: Mfa, out: &mut ByteList) -> Result<(), NoMemory>
    ensures ok { OnOk result (out.new ≡ out.old ++ mfa_text names.now to) }
    ensures kept { StartsWith out.new out.old }
{
    print_atom(names, to.module, out)?;
    out.push(b':')?;
    print_atom(names, to.name, out)?;
    out.push(b'/')?;
    print_number(u64::from(to.arity), out)
}

/// Appends `m:f(args)`. After a refusal a part of it may stand.
pub fn write_call(
    names: &Names,
    to: Mfa,
    args: &TermList,
    out: &mut ByteList,
) -> Result<(), NoMemory>
    ensures ok { OnOk result (out.new ≡ out.old ++ call_text names.now to args.now) }
    ensures kept { StartsWith out.new out.old }
{
    print_atom(names, to.module, out)?;
    out.push(b':')?;
    print_atom(names, to.name, out)?;
    out.push(b'(')?;
    write_terms(names, args.as_slice(), out)?;
    out.push(b')')
}

fn write_terms(names: &Names, terms: &[Term], out: &mut ByteList) -> Result<(), NoMemory>
    ensures ok { OnOk result (out.new ≡ out.old ++ join_with_byte 44 (map (term_text names.now) terms.now)) }
    ensures kept { StartsWith out.new out.old }
{
    let Some((first, others)) = terms.split_first() else {
        return Ok(());
    };
    print_term(names, first, out)?;
    write_other_terms(names, others, out)
}

fn write_other_terms(names: &Names, terms: &[Term], out: &mut ByteList) -> Result<(), NoMemory>
    ensures ok { OnOk result (out.new ≡ out.old ++ flat_map (λ term. 44 ∷ term_text names.now term) terms.now) }
    ensures kept { StartsWith out.new out.old }
{
    for term in terms {
        out.push(b',')?;
        print_term(names, term, out)?;
    }
    Ok(())
}

/// Appends the atoms, with commas between them. After a refusal a part of them may stand.
pub fn write_atoms(names: &Names, atoms: &AtomList, out: &mut ByteList) -> Result<(), NoMemory>
    ensures ok { OnOk result (out.new ≡ out.old ++ join_with_byte 44 (map (λ atom. atom_text names.now atom.0) atoms.now)) }
    ensures kept { StartsWith out.new out.old }
{
    let Some((first, others)) = atoms.as_slice().split_first() else {
        return Ok(());
    };
    print_atom(names, *first, out)?;
    write_other_atoms(names, others, out)
}

fn write_other_atoms(names: &Names, atoms: &[AtomId], out: &mut ByteList) -> Result<(), NoMemory>
    ensures ok { OnOk result (out.new ≡ out.old ++ flat_map (λ atom. 44 ∷ atom_text names.now atom.0) atoms.now) }
    ensures kept { StartsWith out.new out.old }
{
    for atom in atoms {
        out.push(b',')?;
        print_atom(names, *atom, out)?;
    }
    Ok(())
}
