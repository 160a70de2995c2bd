// What the overlays of a run can and cannot change. There is no code here: specs/ states it, proofs/ proves it.
#![tactic(auto)]
