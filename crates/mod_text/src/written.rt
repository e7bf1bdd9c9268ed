//! Lines as they are written: their words are slices of the text.

/// An operand, a register by the digits of its number.
#[derive(Clone, Copy)]
pub enum WrittenOperand<'a> {
    Register(&'a [u8]),
    Integer(&'a [u8]),
    Atom(&'a [u8]),
    /// A tuple or a list.
    Complex(&'a [u8]),
}

/// An instruction, its labels and atoms texts, its arities and registers digits.
#[derive(Clone, Copy)]
pub enum WrittenInstr<'a> {
    Move {
        from: WrittenOperand<'a>,
        to: &'a [u8],
    },
    Add {
        a: WrittenOperand<'a>,
        b: WrittenOperand<'a>,
        to: &'a [u8],
    },
    Sub {
        a: WrittenOperand<'a>,
        b: WrittenOperand<'a>,
        to: &'a [u8],
    },
    Eq {
        a: WrittenOperand<'a>,
        b: WrittenOperand<'a>,
        target: &'a [u8],
    },
    Less {
        a: WrittenOperand<'a>,
        b: WrittenOperand<'a>,
        target: &'a [u8],
    },
    Jump {
        target: &'a [u8],
    },
    Call {
        name: &'a [u8],
        arity: &'a [u8],
        at: &'a [u8],
    },
    CallExt {
        module: &'a [u8],
        name: &'a [u8],
        arity: &'a [u8],
        at: &'a [u8],
    },
    Ret {
        value: WrittenOperand<'a>,
    },
    Pget {
        key: &'a [u8],
        to: &'a [u8],
    },
    PgetOr {
        key: &'a [u8],
        other: WrittenOperand<'a>,
        to: &'a [u8],
    },
    Elem {
        index: WrittenOperand<'a>,
        from: WrittenOperand<'a>,
        to: &'a [u8],
    },
    Print {
        value: WrittenOperand<'a>,
    },
    Yield,
}

/// A line.
#[derive(Clone, Copy)]
pub enum WrittenLine<'a> {
    Title {
        name: &'a [u8],
        version: &'a [u8],
    },
    Header {
        exported: bool,
        name: &'a [u8],
        arity: &'a [u8],
    },
    Label {
        name: &'a [u8],
    },
    Instr(WrittenInstr<'a>),
    End,
}
