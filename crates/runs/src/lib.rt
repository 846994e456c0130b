//! Whole runs of an auction: what each call may do, the history that calls leave, and the law that holds of every history.
//! There is no code here, only definitions and proofs; the contracts of the auction's calls are stated with them.
#![tactic(auto)]
