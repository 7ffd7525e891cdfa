// What "memory is a tree by these rules" means, and that a walk decides it. It is mathematics alone: specs/ and proofs/.
#![tactic(auto)]
