//! Which generations in the shared words are those of the code server.
#![tactic(auto)]

mod laws;
mod naming;

pub use laws::{
    served_code_is_known, served_generations_are_lawful, turns_by_served_generations_agree,
};
pub use naming::{CodeLaw, Naming};
