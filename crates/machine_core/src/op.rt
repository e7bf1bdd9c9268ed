//! Instructions as the machine reads them from the words of an instance.

use term_core::{AtomId, Mfa, Term};

/// What an instruction reads: a register, an integer or an atom, or the place of a complex constant's image in the frame's instance.
#[derive(Debug, Drop)]
pub enum Source {
    /// A register, 0 to 15.
    Register(u32),
    Immediate(Term),
    Constant(u32),
}

/// An instruction. A target is a place in the instance's image, counted in words.
#[derive(Debug, Drop)]
pub enum Op {
    Move {
        from: Source,
        to: u32,
    },
    Add {
        a: Source,
        b: Source,
        to: u32,
    },
    Sub {
        a: Source,
        b: Source,
        to: u32,
    },
    Eq {
        a: Source,
        b: Source,
        target: u32,
    },
    Less {
        a: Source,
        b: Source,
        target: u32,
    },
    Jump {
        target: u32,
    },
    Call {
        function: u32,
        at: u32,
    },
    CallExt {
        to: Mfa,
        at: u32,
    },
    Ret {
        value: Source,
    },
    Pget {
        key: AtomId,
        to: u32,
    },
    PgetOr {
        key: AtomId,
        other: Source,
        to: u32,
    },
    Elem {
        index: Source,
        from: Source,
        to: u32,
    },
    Print {
        value: Source,
    },
    Yield,
}
