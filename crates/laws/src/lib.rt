#![tactic(auto)]

// The laws of the paper's definitions: proofs only, no code.
