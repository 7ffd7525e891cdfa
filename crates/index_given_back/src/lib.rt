// Empty layers given back, seen in the trees of the mathematics: memory stays a tree and lists the same. It is mathematics alone: proofs/.
#![tactic(auto)]
