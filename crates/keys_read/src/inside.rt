// The bytes of a part as a number, read eight at once or one by one. What a caller must know stands in `requires`.
ghost use Rattle.std.specs.Prelude.{◌≡◌, ◌+◌, ◌^◌, ◌≤◌, ◌<◌, length, get_or, drop};
ghost use Rattle.order.specs.Layer.{big_endian};

// A byte as a number of 64 bits.
fn wide(x: u8) -> u64
    ensures { (result ≡ x) × (result < 256) }
{
    u64::from(x)
}

// Four bytes from an offset on, the first one highest.
fn four(rest: &[u8], at: usize) -> u64
    requires { at + 4 ≤ length rest.now }
    ensures { (result ≡ big_endian 4 (drop at rest.now)) × (result < 2 ^ 32) }
{
    let a = wide(rest[at]);
    let b = wide(rest[at + 1]);
    let c = wide(rest[at + 2]);
    let d = wide(rest[at + 3]);
    a * 0x100_0000 + b * 0x1_0000 + c * 0x100 + d
}

// Eight bytes, the first one highest.
pub fn eight(rest: &[u8]) -> u64
    requires { 8 ≤ length rest.now }
    ensures { result ≡ big_endian 8 rest.now }
{
    let high = four(rest, 0);
    let low = four(rest, 4);
    high * 0x1_0000_0000 + low
}

// A part of fewer than eight bytes, zero-filled at the end.
pub fn read_ikey_slow(rest: &[u8]) -> u64
    ensures { result ≡ big_endian 8 rest.now }
{
    let mut ikey: u64 = 0;
    // `ikey` has the first i bytes, with zeros for those past the end.
    for i in 0..8 {
        ikey = ikey * 256 + byte_or_zero(rest, i);
    }
    ikey
}

// The byte at i, or 0 past the end.
fn byte_or_zero(rest: &[u8], i: usize) -> u64
    ensures { (result ≡ get_or rest.now i 0) × (result < 256) }
{
    match rest.get(i) {
        Some(x) => wide(*x),
        None => 0,
    }
}
