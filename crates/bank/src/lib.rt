// The rules of slots, over lists of positions of any width. They are mathematics: specs/ and proofs/. There is no code here.
#![tactic(auto)]
