// The lower block triangular form of a matrix.
#![tactic(auto)]

pub mod entry;
pub mod form;
pub mod matched;

pub use entry::find_block_diag_form;
pub use form::{FormOutputs, FormWork};
