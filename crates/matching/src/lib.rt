// The matching of rows to columns.
#![tactic(auto)]

pub mod diagonal;
pub mod search;

pub use diagonal::find_diag_matching;
pub use search::SearchWork;
