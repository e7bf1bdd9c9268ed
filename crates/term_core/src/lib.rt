//! Atoms, terms, their texts and images, and the references to areas that the layers above share.
#![tactic(auto)]

mod area;
mod atom;
mod builder;
mod byte_kind;
mod copy;
mod form;
mod generation;
mod hold;
mod image_fault;
mod image_reading;
mod immediate;
mod integer;
mod items;
mod leaves;
mod names;
mod naming;
mod no_memory;
mod parts;
mod printing;
mod reading;
mod same;
mod scan;
mod stack;
mod switch;
mod term;
mod term_fault;
mod term_image;
mod term_text;

pub use area::{AreaRef, CodeRef, Found};
pub use atom::{AtomId, Mfa};
pub use form::{is_term_text, is_wide_text, term_in, text_words, texts_are_forms};
pub use generation::{
    AreaRefList, AreaWords, AreaWordsList, ExportList, FunctionRef, FunctionRefList, Generation,
    Holding, KeyTerm, KeyTermList, Next,
};
pub use hold::{Full, Kind, MOST_AREAS};
pub use image_fault::ImageFault;
pub use image_reading::read_image;
pub use immediate::{parts_of_word, words_read_back};
pub use integer::{
    GREATEST_INTEGER, LEAST_INTEGER, is_integer_text, is_number_text, narrow_of, number_of,
    parsed_integer, small_number,
};
pub use items::{AtomList, ByteList, CountList, Items, WordList};
pub use names::{LONGEST_ATOM, MOST_NAMES, NameFault, Names, is_atom_text};
pub use naming::name_atoms;
pub use no_memory::NoMemory;
pub use parts::{cut_at, cut_first, cut_term, terms_are_parted};
pub use printing::{print_atom, print_number, print_term};
pub use switch::switch_of;
pub use term::{Term, TermList};
pub use term_fault::TermFault;
pub use term_image::{image, image_len, images_read_back};
pub use term_text::{MOST_WORDS, read_term, terms_read_back};
