// What must be believed of the three calls of the library, and the theorems about them. There is no code here: specs/ defines the calls and states
// the demands on them; proofs/ proves these. That the code does what is defined here is the contract of `cilunovay_run`, of `cilunovay_check` and of
// `cilunovay_convert`.
#![tactic(auto)]
