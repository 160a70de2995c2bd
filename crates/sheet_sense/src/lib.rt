// What the counting of sheets (#103) means: theorems on the definitions of `plan`. They stand in specs/; there is no code.
#![tactic(auto)]
