ghost use Rattle.std.specs.Prelude.{◌≡◌, IfOk};

use std::alloc::Global;
use term_core::{AtomId, Items, Mfa, NoMemory, Term};

/// How many registers a frame has.
pub const REGISTERS: u32 = 16;

/// How many arguments a function takes at most.
pub const MOST_ARGUMENTS: u32 = 15;

/// The greatest version of a module; the least is 1.
pub const GREATEST_VERSION: u32 = 999_999;

/// How many functions a module has at most.
pub const MOST_FUNCTIONS: usize = 16;

/// How many words the image of an instance has at most.
pub const LONGEST_IMAGE: usize = 1024;

/// What an instruction reads: a register of its frame or a constant.
#[derive(Clone, Debug, Drop, PartialEq, Eq)]
pub enum Operand {
    /// A register, 0 to 15.
    Reg(u32),
    Const(Term),
}

/// An instruction of the call machine.
///
/// A target is the number of an instruction of the same function, from 0, or the number of its instructions.
#[derive(Clone, Debug, Drop, PartialEq, Eq)]
pub enum Instr {
    /// The register becomes the value.
    Move {
        from: Operand,
        to: u32,
    },
    /// The register becomes the sum of two integers.
    Add {
        a: Operand,
        b: Operand,
        to: u32,
    },
    /// The register becomes the first integer less the second.
    Sub {
        a: Operand,
        b: Operand,
        to: u32,
    },
    /// Goes to the target if the terms are equal.
    Eq {
        a: Operand,
        b: Operand,
        target: u32,
    },
    /// Goes to the target if the first integer is less than the second.
    Less {
        a: Operand,
        b: Operand,
        target: u32,
    },
    /// Goes to the target.
    Jump {
        target: u32,
    },
    /// Enters a function of the same instance, by its number in the module. Its arguments stand in the registers
    /// from `at` on; its value comes into `at`.
    Call {
        function: u32,
        at: u32,
    },
    /// Enters a function of a current instance, as an external call of Erlang does.
    CallExt {
        to: Mfa,
        at: u32,
    },
    /// Leaves the frame with the value.
    Ret {
        value: Operand,
    },
    /// The register becomes the persistent term of the key, as by Erlang's `persistent_term:get/1`.
    Pget {
        key: AtomId,
        to: u32,
    },
    /// The same, or the other value where the key has none, as by `persistent_term:get/2`.
    PgetOr {
        key: AtomId,
        other: Operand,
        to: u32,
    },
    /// The register becomes an element of a tuple or a list, counted from 1.
    Elem {
        index: Operand,
        from: Operand,
        to: u32,
    },
    /// Makes a line of the value.
    Print {
        value: Operand,
    },
    /// Ends the turn.
    Yield,
}

/// The instructions of a function, in order.
pub type InstrList = Items<Instr>;

/// A function of a module. Past its last instruction it returns `ok`.
#[derive(Debug, Drop)]
pub struct Function {
    pub name: AtomId,
    /// At most 15.
    pub arity: u32,
    /// Whether other modules may call it.
    pub exported: bool,
    pub code: InstrList,
}

/// The functions of a module, in the order of its text.
pub type FunctionList = Items<Function>;

/// A version of a module.
#[derive(Debug, Drop)]
pub struct Module {
    pub name: AtomId,
    /// From 1 to 999,999.
    pub version: u32,
    pub functions: FunctionList,
}

impl Instr {
    /// An equal instruction.
    fn copy(&self) -> Result<Instr, NoMemory>
        ensures { IfOk result (λ copy. copy ≡ self.now) }
    {
        Ok(self.clone()?)
    }
}

impl Function {
    /// An equal function.
    fn copy(&self, alloc: Global) -> Result<Function, NoMemory>
        ensures { IfOk result (λ copy. copy ≡ self.now) }
    {
        let mut code = InstrList::new(alloc);
        for instr in self.code.as_slice() {
            code.push(instr.copy()?)?;
        }
        Ok(Function {
            name: self.name,
            arity: self.arity,
            exported: self.exported,
            code,
        })
    }
}

impl Module {
    /// An equal module.
    pub fn copy(&self, alloc: Global) -> Result<Module, NoMemory>
        ensures { IfOk result (λ copy. copy ≡ self.now) }
    {
        let mut functions = FunctionList::new(alloc);
        for function in self.functions.as_slice() {
            functions.push(function.copy(alloc)?)?;
        }
        Ok(Module {
            name: self.name,
            version: self.version,
            functions,
        })
    }
}
