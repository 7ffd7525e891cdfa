// What a put writes over words, seen as the nodes of the trees.
#![tactic(auto)]
