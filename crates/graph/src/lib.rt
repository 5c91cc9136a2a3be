// The mathematics of matchings, walks and blocks. There is no code here: see specs/ for the definitions and proofs/ for the laws.
#![tactic(auto)]
