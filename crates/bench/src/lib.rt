#![tactic(auto)]

// Several modules on one harness: definitions of a bench, its rules, and the theorems about every history (specs/, proofs/).
