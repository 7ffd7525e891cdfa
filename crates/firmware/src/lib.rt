// The camera's interface in C: numbers and slices go over, results come back through lent numbers and lent memory, and no enum crosses.
// A call returns 0, or the number of a refusal, and then every lent number, word and byte is as it was, but for the number lent for what
// the refusal tells, and for an index that is left empty where its image finds no room. Of those that are never refused `read_ikey` returns
// the ikey, and the two that build labels return nothing.
#![tactic(auto)]

mod card;
mod editions;
mod keys;
mod labels;
mod nodes;
mod slots;
mod wide;
