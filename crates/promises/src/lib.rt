#![tactic(auto)]

// The end statements over the rules, in specs/, with their proofs in proofs/. There is no code here.
