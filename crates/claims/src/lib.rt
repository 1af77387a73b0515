#![tactic(auto)]

// Theorems about the model: see specs/ for the statements and proofs/ for the proofs.
