// The sum of a memory, by which a recorded call tells what it left there: for each number, three times the sum so far and the number,
// running round at 2^64.
#![tactic(auto)]

ghost use Rattle.std.specs.Prelude.{◌≡◌};
ghost use Rattle.replay_sum.specs.Sums.{onward, summed, of_memory};

// Three times the sum, and the number.
fn next(sum: u64, number: u64) -> u64
    ensures { result ≡ onward sum number }
{
    sum.wrapping_add(sum).wrapping_add(sum).wrapping_add(number)
}

// A sum that goes on over words.
pub fn words(start: u64, words: &[u64]) -> u64
    ensures { result ≡ summed start words.now }
{
    words.iter().fold(start, |sum, word| next(sum, *word))
}

// A sum that goes on over bytes.
pub fn all(start: u64, bytes: &[u8]) -> u64
    ensures { result ≡ summed start bytes.now }
{
    bytes
        .iter()
        .fold(start, |sum, byte| next(sum, u64::from(*byte)))
}

// The sum of a memory: nodes, then cells, then bytes.
pub fn of(nodes: &[u64], cells: &[u64], bytes: &[u8]) -> u64
    ensures { result ≡ of_memory nodes.now cells.now bytes.now }
{
    all(words(words(1, nodes), cells), bytes)
}
