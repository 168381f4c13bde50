// Demand 3: one statement on entire histories of events, and its proof (specs/ and proofs/ alone).
#![tactic(auto)]
