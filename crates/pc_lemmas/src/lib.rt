//! Lemmas on lists, options and equivalences, which the proofs of other crates cite as they cite those of a library.
#![tactic(auto)]
