// Trace theory of any machine that steps one actor at a time. It has no code: `specs/` holds the definitions, with the laws asked of a machine in
// `specs/Machine.antt` and the theorems' statements in `specs/Theorems.antt`; `proofs/Theorems.antt` has `theorems`, their proof.
#![tactic(auto)]
