// The laws of labels: theorems on the definitions of `label`, and an order on labels. They stand in specs/; there is no code.
#![tactic(auto)]
