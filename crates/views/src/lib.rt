// Lent memory seen as the trees of the mathematics: nodes with their entries or children, cells with their keys. It is mathematics
// alone: specs/ and proofs/.
#![tactic(auto)]
