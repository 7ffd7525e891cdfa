// What is measured: the audit of lent memory, and plain passes over it.

// So many times the audit for n, a plain pass that xors for w, and one that adds for any other.
pub(crate) fn measured(nodes: &[u64], cells: &[u64], bytes: &[u8], which: u8, times: u64) -> u64 {
    if which == b'n' {
        return audits(nodes, cells, bytes, times);
    }
    if which == b'w' {
        return folds(nodes, cells, bytes, times);
    }
    passes(nodes, cells, bytes, times)
}

// The audit, so many times: how often it found a tree.
fn audits(nodes: &[u64], cells: &[u64], bytes: &[u8], times: u64) -> u64 {
    let mut trees: u64 = 0;
    for _ in 0..times {
        if audit::audit(nodes, cells, bytes).is_ok() {
            trees = add(trees, 1);
        }
    }
    trees
}

// One pass, so many times: the sum of every lent word and byte.
fn passes(nodes: &[u64], cells: &[u64], bytes: &[u8], times: u64) -> u64 {
    let mut sum: u64 = 0;
    for _ in 0..times {
        sum = add(sum, words(nodes));
        sum = add(sum, words(cells));
        sum = add(sum, all(bytes));
    }
    sum
}

// The sum of all words.
fn words(words: &[u64]) -> u64 {
    let mut sum: u64 = 0;
    for word in words {
        sum = add(sum, *word);
    }
    sum
}

// The sum of all bytes.
fn all(bytes: &[u8]) -> u64 {
    let mut sum: u64 = 0;
    for byte in bytes {
        sum = add(sum, u64::from(*byte));
    }
    sum
}

// One pass, so many times: the xor of all lent words, and that of all bytes. A compiler does it 16 bytes at a time.
fn folds(nodes: &[u64], cells: &[u64], bytes: &[u8], times: u64) -> u64 {
    let mut sum: u64 = 0;
    for _ in 0..times {
        sum = add(sum, words_folded(nodes));
        sum = add(sum, words_folded(cells));
        sum = add(sum, u64::from(bytes_folded(bytes)));
    }
    sum
}

// The xor of all words.
fn words_folded(words: &[u64]) -> u64 {
    let mut sum: u64 = 0;
    for word in words {
        sum ^= *word;
    }
    sum
}

// The xor of all bytes.
fn bytes_folded(bytes: &[u8]) -> u8 {
    let mut sum: u8 = 0;
    for byte in bytes {
        sum ^= *byte;
    }
    sum
}

// The sum of two numbers, running round at 2^64.
fn add(a: u64, b: u64) -> u64 {
    a.wrapping_add(b)
}
