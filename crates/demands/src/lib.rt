// What must be believed of the monitor, and the theorems about it. There is no code here: specs/ defines a run and states the three demands;
// proofs/ proves them. That the code does what is defined here is the contract of `evaluator::run`.
#![tactic(auto)]
