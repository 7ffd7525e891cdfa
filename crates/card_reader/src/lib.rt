// An image in one piece: its checks, and its stream.
#![tactic(auto)]

pub mod inside;

// What a stream comes to: it is as written, or the place where its first wrong part starts.
#[derive(Clone, Copy)]
pub enum Verdict {
    Right,
    Wrong(usize),
}
