// Stricter labels release no more: a theorem on the evaluation of plans. It stands in specs/; there is no code.
#![tactic(auto)]
