// Definitions and laws only, in specs/: general ones, with no word of M2UA.
#![tactic(auto)]
