// The edit of one column of a matrix.
#![tactic(auto)]

pub mod entry;
pub mod valid;

pub use entry::edit_column;
