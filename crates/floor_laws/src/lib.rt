// Laws of the floor of ten. There is no code here: specs/ states them, proofs/ proves them.
#![tactic(auto)]
