// What a load leaves in the index, as definitions, and what that means. No code.
#![tactic(auto)]
