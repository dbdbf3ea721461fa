#![tactic(auto)]

// The rules of a proper file by places and marks, and that they are the paper's: definitions and proofs only, no code.
