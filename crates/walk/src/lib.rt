// What rules do with the keys of a book, one after the other: what gathers pairs of them; the laws of a loop over them are in proofs/.
#![tactic(auto)]

pub mod put;
