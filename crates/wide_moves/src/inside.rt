// Moves of the positions of a wide bank by bytes, the sorted bank, and where a slot stands. What a caller must know stands in `requires`.
// In a loop a byte is read off the array itself: a function that takes the bank by value would copy it for each byte.
ghost use Rattle.std.specs.Prelude.{◌≡◌, ◌∷◌, ◌+◌, ◌≤◌, ◌<◌, get_or, drop};
ghost use Rattle.std.proofs.Math.Seq.{paste};
ghost use Rattle.bank.specs.Lists.{turned, swapped};
ghost use Rattle.bank.specs.Bank.{sorted_at, sorted, place_in_use};
ghost use Rattle.wide_bytes.specs.Wide.{bank_of, bytes_of};

// So many bytes from one place of a bank to a place of another; the others stay.
pub fn copy(to: [u8; 25], p: usize, from: [u8; 25], at: usize, count: usize) -> [u8; 25]
    requires { (p + count ≤ 25) × (at + count ≤ 25) }
    ensures { result ≡ paste to p (drop at from) count }
{
    let mut out = to;
    out[p..p + count].copy_from_slice(&from[at..at + count]);
    out
}

// The bank whose positions a to c-1 are old b to c-1, then old a to b-1, with a size of its own.
pub fn moved(bank: [u8; 25], a: usize, b: usize, c: usize, size: usize) -> [u8; 25]
    requires { (a ≤ b) × (b ≤ c) × (c ≤ 24) × (size ≤ 24) }
    ensures { result ≡ size ∷ turned a b c (drop 1 bank) }
{
    let one = copy(bank, a + 1, bank, b + 1, c - b);
    let mut both = copy(one, a + 1 + (c - b), bank, a + 1, b - a);
    both[0] = size as u8;
    both
}

// Positions i and j change places.
pub fn swap(bank: [u8; 25], i: usize, j: usize) -> [u8; 25]
    requires { (i < 24) × (j < 24) }
    ensures { result ≡ swapped (i + 1) (j + 1) bank }
{
    let mut out = bank;
    out.swap(i + 1, j + 1);
    out
}

// The position in use that holds the slot, or the size.
pub fn place(bank: [u8; 25], width: usize, slot: usize) -> usize
    requires { (get_or bank 0 0 ≤ width) × (width ≤ 24) }
    ensures { result ≡ place_in_use slot (bank_of width bank) }
{
    let size = bank[0] as usize;
    // No position before i holds the slot.
    for i in 0..size {
        if bank[i + 1] as usize == slot {
            return i;
        }
    }
    size
}

// The slot at a position of the sorted bank with n slots in use.
pub fn sorted_at(width: usize, n: usize, i: usize) -> usize
    requires { (n ≤ width) × (i < width) }
    ensures { (result ≡ sorted_at width n i) × (result < width) }
{
    if i < n {
        return i;
    }
    width - 1 - (i - n)
}

// The sorted bank with n slots in use.
pub fn sorted(width: usize, n: usize) -> [u8; 25]
    requires { (n ≤ width) × (width ≤ 24) }
    ensures { result ≡ bytes_of (sorted width n) }
{
    let mut out = [0u8; 25];
    // k positions stand in place.
    for k in 0..width {
        out[1 + k] = sorted_at(width, n, k) as u8;
    }
    out[0] = n as u8;
    out
}
