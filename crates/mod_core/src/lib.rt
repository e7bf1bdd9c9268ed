//! Modules of the call machine: what they are, and the image of an instance.
#![tactic(auto)]

mod code;
mod code_reading;
mod decoding;
mod image;
mod instr_reading;
mod laws;
mod layout;
mod module_list;
mod validity;
mod words;

pub use code::{
    Function, FunctionList, GREATEST_VERSION, Instr, InstrList, LONGEST_IMAGE, MOST_ARGUMENTS,
    MOST_FUNCTIONS, Module, Operand, REGISTERS,
};
pub use decoding::decode;
pub use image::encode;
pub use laws::{encoded_modules_are_read, images_are_of_one_module};
pub use module_list::ModuleList;
pub use validity::validate;
