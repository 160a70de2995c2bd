// What a conversion makes of a container. There is no code here: specs/ states it, proofs/ proves it.
#![tactic(auto)]
