// No unit held is lost or doubled: the theorem and its proof (specs/ and proofs/ alone).
#![tactic(auto)]
