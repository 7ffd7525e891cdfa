// What is printed for a line beside what a sorted map says. It is mathematics alone: specs/ and proofs/.
#![tactic(auto)]
