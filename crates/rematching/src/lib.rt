// A perfect matching kept over the edit of one column.
#![tactic(auto)]

pub mod checks;
pub mod rematch;
