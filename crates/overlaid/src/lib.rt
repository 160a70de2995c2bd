// What the tables of an accepted container hold when accepted overlays are composed onto their labels, and these are read under a rule year. There is no
// code here: specs/ states it, proofs/ proves it from the definitions of the checks.
#![tactic(auto)]
