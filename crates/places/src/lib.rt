// The places of keys in lent memory, seen as places in the trees of the mathematics. It is mathematics alone: proofs/.
#![tactic(auto)]
