// One recorded line of 156 bytes, its fields at fixed places. tests/cards.py makes such lines and says which is which.
ghost use Rattle.std.specs.Prelude.{◌^◌, ◌<◌};

// What the line does, by its first byte; 0 where the line is empty.
pub(crate) fn does(text: &[u8]) -> u8 {
    if text.len() == 0 {
        return 0;
    }
    text[0]
}

// The number that a call answers: 0, or that of a refusal.
pub(crate) fn number(text: &[u8]) -> u64 {
    hex_digits::two(text, 1)
}

// How many words of nodes are lent.
pub(crate) fn nodes(text: &[u8]) -> usize {
    hex_digits::eight(text, 3) as usize
}

// How many words of cells are lent.
pub(crate) fn cells(text: &[u8]) -> usize {
    hex_digits::eight(text, 11) as usize
}

// How many bytes are lent.
pub(crate) fn bytes(text: &[u8]) -> usize {
    hex_digits::eight(text, 19) as usize
}

// A place on the card or in the memory.
pub(crate) fn place(text: &[u8]) -> usize
    ensures { result < 2 ^ 32 }
{
    hex_digits::eight(text, 27) as usize
}

// How many bytes: of a key, of an image, of what is written out.
pub(crate) fn length(text: &[u8]) -> usize
    ensures { result < 2 ^ 32 }
{
    hex_digits::eight(text, 35) as usize
}

// What a call tells, or what a word becomes.
pub(crate) fn told(text: &[u8]) -> u64 {
    hex_digits::sixteen(text, 43)
}

// The frame number of a put, or the sum of what a save has written out.
pub(crate) fn frame(text: &[u8]) -> u64 {
    hex_digits::sixteen(text, 59)
}

// The sum of what is lent, after the call.
pub(crate) fn sum(text: &[u8]) -> u64 {
    hex_digits::sixteen(text, 75)
}

// Byte i of the line's 32 bytes.
pub(crate) fn byte(text: &[u8], i: usize) -> u8
    requires { i < 32 }
{
    hex_digits::byte(text, 91 + 2 * i)
}
