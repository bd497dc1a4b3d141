// Demand 3 as mathematics: specs/Forest.antt and proofs/Theorem.antt. There is no code here.
#![tactic(auto)]
