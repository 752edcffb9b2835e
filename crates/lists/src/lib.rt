// Theorems about the access lists, and no code: the crate's definitions stand in specs/, what is proved of them in proofs/.
#![tactic(auto)]
