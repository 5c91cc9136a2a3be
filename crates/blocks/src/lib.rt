// The blocks of a matrix under a perfect matching: its graph reversed, and walked twice.
#![tactic(auto)]

pub mod cut;
pub mod matched;
pub mod reverse;
pub mod walk;
