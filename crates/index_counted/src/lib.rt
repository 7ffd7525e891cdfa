// The count of entries in word 1 of the nodes, beside the tree: put and remove keep it. It is mathematics alone: proofs/.
#![tactic(auto)]
