// The bytes of a wide bank, and its judgement. What a caller must know stands in `requires`. In a loop a byte is read off the array
// itself: a function that takes the bank by value would copy it for each byte.
ghost use Rattle.std.specs.Prelude.{◌≡◌, ◌≤◌, ◌<◌, get_or, take, drop};
ghost use Rattle.bank.specs.Lists.{each_once};
ghost use Rattle.bank.specs.Judged.{judged_in};
ghost use Rattle.wide_bytes.specs.Wide.{all_zero, valid_bytes, wides};

use refusal::Refusal;

// Byte k: the size, or the slot at position k-1.
pub fn byte(bank: [u8; 25], k: usize) -> usize
    requires { k < 25 }
    ensures { result ≡ get_or bank k 0 }
{
    bank[k] as usize
}

// Whether the positions hold 0 to W-1, once each: a mark for each slot, and none is missing. The loop has one way out, which is what makes
// it fast: the slots are laid over each other, so that one too large to be marked is seen at the end.
pub fn each_once(bank: [u8; 25], width: usize) -> bool
    requires { width ≤ 24 }
    ensures { result ≡ each_once (take width (drop 1 bank)) }
{
    let mut marks: u64 = 0;
    let mut over: u64 = 0;
    // The slots of k positions are marked, and laid over each other.
    for k in 0..width {
        let slot = bank[k + 1] as u64;
        over = over | slot;
        marks = marks | (1u64 << (slot & 63));
    }
    if 63 < over {
        return false;
    }
    marks == (1u64 << width) - 1
}

// Whether the bytes from one on are all 0.
pub fn zero_from(bank: [u8; 25], from: usize) -> bool
    requires { from ≤ 25 }
    ensures { result ≡ all_zero (drop from bank) }
{
    bank[from..].iter().all(|byte| *byte == 0)
}

// Whether a wide bank is valid.
pub fn valid(bank: [u8; 25], width: usize) -> bool
    requires { width ≤ 24 }
    ensures { result ≡ valid_bytes width bank }
{
    byte(bank, 0) <= width && each_once(bank, width) && zero_from(bank, width + 1)
}

// Whether a wide bank may be used at its width: refusal 1 for the width, 2 for the bank.
pub fn judge(bank: [u8; 25], width: usize) -> Result<(), Refusal>
    ensures { result ≡ judged_in (wides width) bank }
{
    if width < 16 || 24 < width {
        return Err(Refusal::Width);
    }
    if !valid(bank, width) {
        return Err(Refusal::Word);
    }
    Ok(())
}
