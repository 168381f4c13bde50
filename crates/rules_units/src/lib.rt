// The unit held that each Data to an ASP sends: the theorem every_unit and its proof (specs/ and proofs/
// alone).
#![tactic(auto)]
