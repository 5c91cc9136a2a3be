// The storage of a sparse matrix's pattern: its kinds of number, its limits, its refusals, and the checks of input.
#![tactic(auto)]

pub mod checks;
pub mod mat;
pub mod refusal;
pub mod slices;

pub use mat::{Edit, EditedMat, SparseMat, SquareMat};
pub use refusal::Refusal;

// The three kinds of number that never meet. A bare number that means one of them stands only inside a slice.
#[derive(Clone, Copy, PartialEq, Eq)]
pub struct Column(pub u32);

#[derive(Clone, Copy, PartialEq, Eq)]
pub struct OriginalRow(pub u32);

#[derive(Clone, Copy, PartialEq, Eq)]
pub struct NewRow(pub u32);

pub const MAX_SIZE: u32 = 4096;

pub const MAX_ENTRIES: u32 = 1048576;

// No column: no size, place or position is as large. It stands only inside slices.
pub const NONE: u32 = 4294967295;
