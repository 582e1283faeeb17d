// Document 01 as definitions in `specs/`, and what is proved of them in `proofs/`. It has no code.
#![tactic(auto)]
