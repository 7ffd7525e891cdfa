// The writer of an image: a cursor in the stream gives one byte after the other, and each block is filled in its own part of the buffer.
#![tactic(auto)]

pub mod inside;

// A place in the stream: the piece, and the byte in it.
#[derive(Clone, Copy)]
pub struct Cursor {
    pub piece: usize,
    pub at: usize,
}

// What the writer answers: so many blocks, or that the buffer is too short for them.
#[derive(Clone, Copy)]
pub enum Written {
    Blocks(usize),
    Short,
}
