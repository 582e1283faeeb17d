// Step names: which a table has, and lists of them in bytes. It has no code: `specs/` holds the definitions, and `proofs/` what holds of them.
#![tactic(auto)]
