// Orders, matchings and block forms of a sparse matrix's pattern.
#![tactic(auto)]

pub mod order;
pub mod queue;

pub use order::{OrderBuffers, order_simple};
