// Slot words made from slot words: turned, with a slot put to use, set, resized and exchanged. All of it is inside:
// for the calls of crate permuter, and for whoever has judged the word.
#![tactic(auto)]

pub mod inside;
