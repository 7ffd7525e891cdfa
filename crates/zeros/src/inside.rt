// Zeros in a part: its members are laid over each other with no early way out, which a compiler can do in wide registers. What a caller
// must know stands in `requires`.
ghost use Rattle.std.specs.Prelude.{◌≡◌, ◌+◌, ◌≤◌, length};
ghost use Rattle.arena.specs.Parts.{part};
ghost use Rattle.forest.specs.Nodes.{all_zero};

// Whether n words from `at` on are zero.
pub fn words_zero(words: &[u64], at: usize, n: usize) -> bool
    requires { at + n ≤ length words.now }
    ensures { result ≡ all_zero (part words.now at n) }
{
    let mut found: u64 = 0;
    // `found` is the first i words laid over each other.
    for i in 0..n {
        found |= words[at + i];
    }
    found == 0
}

// Whether n bytes from `at` on are zero.
pub fn bytes_zero(bytes: &[u8], at: usize, n: usize) -> bool
    requires { at + n ≤ length bytes.now }
    ensures { result ≡ all_zero (part bytes.now at n) }
{
    let mut found: u8 = 0;
    // `found` is the first i bytes laid over each other.
    for i in 0..n {
        found |= bytes[at + i];
    }
    found == 0
}
