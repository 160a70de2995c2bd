// What an accepted container holds. There is no code here: specs/ states it, proofs/ proves it from the definitions of the checks.
#![tactic(auto)]
