// What a routine did, by the list of its accesses, and the laws that the proofs of the routines and of the calls want. There is no code.
#![tactic(auto)]
