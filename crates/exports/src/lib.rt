// The C face of the library, one function for each entry but the edit, which has an archive of its own (`edit_exports`). An answer crosses
// it as a refusal number, 0 where it is an acceptance, and a place.
#![tactic(auto)]

pub mod diagonal;
pub mod form;
pub mod order;
