//! Words and lemmas about the definitions, for proofs of the crates above. Nothing here runs; the laws are stated in
//! `law_book`.
#![tactic(auto)]
