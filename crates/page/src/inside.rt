// The lines that are printed, written to lent bytes from a place on. Each function hands back the place behind what it wrote; that there is
// room for it stands in `requires`.
ghost use Rattle.std.specs.Prelude.{◌≡◌, [], ◌∷◌, ◌+◌, ◌≤◌, ◌<◌, length};
ghost use Rattle.page.specs.Page.{Typed};
ghost use Rattle.page.specs.Shown.{decimal as Shown·decimal, hex_of, hex_digit, key_shown, ok_line, bad_line, refused_line};
ghost use Rattle.page.specs.Shown.{number_line, header_line, entry_line};

// Appends bytes as they are.
pub fn append(out: &mut [u8], at: usize, text: &[u8]) -> usize
    requires { at + length text.now ≤ length out.old }
    ensures { Typed out.old at text.now result out.new }
{
    arena::inside::copy_bytes(text, 0, out, at, text.len());
    at + text.len()
}

// Appends one byte.
pub fn append_byte(out: &mut [u8], at: usize, b: u8) -> usize
    requires { at + 1 ≤ length out.old }
    ensures { Typed out.old at (b ∷ []) result out.new }
{
    out[at] = b;
    at + 1
}

// Appends a number in decimal. Not by `write!`: a writer over lent bytes would have to be made, and asked for the place behind.
pub fn decimal(out: &mut [u8], at: usize, n: u64) -> usize
    requires { at + length (Shown·decimal n) ≤ length out.old }
    ensures { Typed out.old at (Shown·decimal n) result out.new }
{
    if n < 10 {
        return append_byte(out, at, b'0' + n as u8);
    }
    let next = decimal(out, at, n / 10);
    append_byte(out, next, b'0' + (n % 10) as u8)
}

// The lower-case hex digit of a number below 16.
fn hex_digit(n: u8) -> u8
    requires { n < 16 }
    ensures { result ≡ hex_digit n }
{
    if n < 10 { b'0' + n } else { b'a' - 10 + n }
}

// Appends two hex digits for each byte.
fn hex(out: &mut [u8], at: usize, key: &[u8]) -> usize
    requires { at + length (hex_of key.now) ≤ length out.old }
    ensures { Typed out.old at (hex_of key.now) result out.new }
{
    let mut next = at;
    // The digits of the bytes so far are written, up to the place `next`.
    for b in key {
        next = append_byte(out, next, hex_digit(*b / 16));
        next = append_byte(out, next, hex_digit(*b % 16));
    }
    next
}

// Appends a key in hex, or `-` where it is empty.
pub fn key(out: &mut [u8], at: usize, key: &[u8]) -> usize
    requires { at + length (key_shown key.now) ≤ length out.old }
    ensures { Typed out.old at (key_shown key.now) result out.new }
{
    if key.len() == 0 {
        return append_byte(out, at, b'-');
    }
    hex(out, at, key)
}

// Appends the line `ok`.
pub fn ok(out: &mut [u8], at: usize) -> usize
    requires { at + 3 ≤ length out.old }
    ensures { Typed out.old at ok_line result out.new }
{
    append(out, at, b"ok\n")
}

// Appends the line `bad line`.
pub fn bad_line(out: &mut [u8], at: usize) -> usize
    requires { at + 9 ≤ length out.old }
    ensures { Typed out.old at bad_line result out.new }
{
    append(out, at, b"bad line\n")
}

// Appends the line `refused N`.
pub fn refused(out: &mut [u8], at: usize, n: u64) -> usize
    requires { at + length (refused_line n) ≤ length out.old }
    ensures { Typed out.old at (refused_line n) result out.new }
{
    let mut next = append(out, at, b"refused ");
    next = decimal(out, next, n);
    append_byte(out, next, b'\n')
}

// Appends a line with a number alone.
pub fn number(out: &mut [u8], at: usize, n: u64) -> usize
    requires { at + length (number_line n) ≤ length out.old }
    ensures { Typed out.old at (number_line n) result out.new }
{
    let next = decimal(out, at, n);
    append_byte(out, next, b'\n')
}

// Appends the line `N entries`.
pub fn header(out: &mut [u8], at: usize, n: u64) -> usize
    requires { at + length (header_line n) ≤ length out.old }
    ensures { Typed out.old at (header_line n) result out.new }
{
    let next = decimal(out, at, n);
    append(out, next, b" entries\n")
}

// Appends the line `KEY FRAME`.
pub fn entry(out: &mut [u8], at: usize, stored: &[u8], frame: u64) -> usize
    requires { at + length (entry_line stored.now frame) ≤ length out.old }
    ensures { Typed out.old at (entry_line stored.now frame) result out.new }
{
    let mut next = key(out, at, stored);
    next = append_byte(out, next, b' ');
    next = decimal(out, next, frame);
    append_byte(out, next, b'\n')
}
