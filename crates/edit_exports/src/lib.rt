// The C face of the edit, in an archive of its own. A search that only one entry of an archive makes is compiled into its caller; beside
// the matching in one archive it would be a call for each column, and the matching slower.
#![tactic(auto)]

pub mod column;
