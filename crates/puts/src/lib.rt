// Lent memory with a new key, seen as the put of the trees of the mathematics. It is mathematics alone: proofs/.
#![tactic(auto)]
