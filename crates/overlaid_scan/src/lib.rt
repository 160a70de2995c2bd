// SCAN, then the overlays and then the floor leave in work memory the table that the plan is evaluated over. There is no code here: specs/ states it, proofs/
// proves it from what `scan` and `overlay_step` promise.
#![tactic(auto)]
