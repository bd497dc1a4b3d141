// The list of all rules as mathematics: specs/Rules.antt and the laws in proofs/. There is no code here.
#![tactic(auto)]
