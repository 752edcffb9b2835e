// What the calls promise is written in `model`; what follows from it is proved here. There is no code.
#![tactic(auto)]
