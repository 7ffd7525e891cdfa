// What saving an index to an image and reading it back answer and leave, and what that means.
#![tactic(auto)]
