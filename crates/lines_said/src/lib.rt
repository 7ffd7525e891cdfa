// What the answer to a line is, as definitions: what is printed, and what is left in memory. No code: read specs/.
#![tactic(auto)]
