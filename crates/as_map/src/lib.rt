// The index beside the sorted map: calls, what their caller hears, and that it is what a sorted map says. It is mathematics alone:
// specs/ and proofs/.
#![tactic(auto)]
