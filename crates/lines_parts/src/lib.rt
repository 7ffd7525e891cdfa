// What the lines of an input leave, one after another, however the input is cut into parts: definitions and theorems. No code.
#![tactic(auto)]
