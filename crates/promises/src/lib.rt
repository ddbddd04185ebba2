// What holds across the crates. There is no code here: the statements stand in specs/, and their proofs in proofs/.
#![tactic(auto)]
