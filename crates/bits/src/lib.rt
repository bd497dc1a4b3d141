// Numbers in a byte slice: fields of any number of bits, the most significant first, and words of whole bytes.
#![tactic(auto)]

ghost use Rattle.std.specs.Prelude.{◌≡◌, ◌+◌, ◌*◌, ◌<◌, ◌≤◌, ◌/◌, ◌%◌, ◌^◌, length, get_or};
ghost use Rattle.bits.specs.Bits.{bits_at, be_at, le_at};

// A place between bits: 8 times a byte's index, and the bits passed of that byte.
#[derive(Clone, Copy)]
pub struct Cursor {
    pub at: usize,
}

// A field that was taken, and the cursor past it.
#[derive(Clone, Copy)]
pub struct Taken {
    pub value: u64,
    pub next: Cursor,
}

// `size` bits of a byte, above its `low` least significant ones.
fn part(byte: u8, low: usize, size: usize) -> u64
    requires { low + size ≤ 8 }
    ensures { result ≡ byte / 2 ^ low % 2 ^ size }
{
    ((byte as u64) >> low) % (1u64 << size)
}

// The number that the `n` bits from bit `from` on make: those of the last byte, below those before it.
// A function that calls itself is not inlined, so `take` stays short enough to be.
fn bits_by_byte(s: &[u8], from: usize, n: usize) -> u64
    requires { (n ≤ 64) × (from + n ≤ 8 * length s.now) × (from + n < 2 ^ 64) }
    ensures { result ≡ bits_at s.now from n }
{
    if n == 0 {
        return 0;
    }
    let last = from + n - 1;
    let size = (last % 8 + 1).min(n);
    (bits_by_byte(s, from, n - size) << size) + part(s[last / 8], 7 - last % 8, size)
}

// The same, of a field that ends in the byte after its first.
fn bits_of_two(s: &[u8], from: usize, n: usize) -> u64
    requires { (from + n ≤ 8 * length s.now) × (8 < from % 8 + n) × (from % 8 + n ≤ 16) }
    ensures { result ≡ bits_at s.now from n }
{
    let i = from / 8;
    let upper = 8 - from % 8;
    let lower = n - upper;
    (part(s[i], 0, upper) << lower) + part(s[i + 1], 8 - lower, lower)
}

// The same, of a field of 1 to 16 bits: most stand in one byte or two.
fn short_bits(s: &[u8], from: usize, n: usize) -> u64
    requires { (0 < n) × (n ≤ 16) × (from + n ≤ 8 * length s.now) × (from + n < 2 ^ 64) }
    ensures { result ≡ bits_at s.now from n }
{
    let end = from % 8 + n;
    if end <= 8 {
        return part(s[from / 8], 8 - end, n);
    }
    if end <= 16 {
        return bits_of_two(s, from, n);
    }
    bits_by_byte(s, from, n)
}

// The same, of a field that starts with byte `i`: a word of whole bytes is read at once.
fn word_bits(s: &[u8], i: usize, n: usize) -> u64
    requires { (n ≤ 64) × (8 * i + n ≤ 8 * length s.now) × (8 * i + n < 2 ^ 64) }
    ensures { result ≡ bits_at s.now (8 * i) n }
{
    if n == 32 {
        return be32(s, i) as u64;
    }
    if n == 64 {
        return be64(s, i);
    }
    bits_by_byte(s, 8 * i, n)
}

// The same, by the shortest way: where the size and the place in a byte are constants, the compiler leaves that way alone.
fn bits_at(s: &[u8], from: usize, n: usize) -> u64
    requires { (n ≤ 64) × (from + n ≤ 8 * length s.now) × (from + n < 2 ^ 64) }
    ensures { result ≡ bits_at s.now from n }
{
    if n == 0 {
        return 0;
    }
    if n <= 16 {
        return short_bits(s, from, n);
    }
    if from % 8 == 0 {
        return word_bits(s, from / 8, n);
    }
    bits_by_byte(s, from, n)
}

impl Cursor {
    // The number that the next `n` bits make, and the cursor past them.
    pub fn take(self, s: &[u8], n: usize) -> Taken
        requires { (n ≤ 64) × (self.at + n ≤ 8 * length s.now) × (self.at + n < 2 ^ 64) }
        ensures { (result.value ≡ bits_at s.now self.at n) × (result.next.at ≡ self.at + n) × (result.value < 2 ^ n) }
    {
        let from = self.at;
        let value = bits_at(s, from, n);
        Taken {
            value,
            next: Cursor { at: from + n },
        }
    }
}

// The byte at `at`, as a wider number.
pub fn byte(s: &[u8], at: usize) -> u32
    requires { at < length s.now }
    ensures { (result ≡ get_or s.now at 0) × (result < 256) }
{
    s[at] as u32
}

// The big-endian 32-bit word at byte `at`.
pub fn be32(s: &[u8], at: usize) -> u32
    requires { at + 4 ≤ length s.now }
    ensures { result ≡ be_at s.now at 4 }
{
    byte(s, at) * 0x100_0000
        + byte(s, at + 1) * 0x1_0000
        + byte(s, at + 2) * 0x100
        + byte(s, at + 3)
}

// The big-endian 64-bit word at byte `at`.
pub fn be64(s: &[u8], at: usize) -> u64
    requires { at + 8 ≤ length s.now }
    ensures { result ≡ be_at s.now at 8 }
{
    let high = be32(s, at) as u64;
    let low = be32(s, at + 4) as u64;
    high * 0x1_0000_0000 + low
}

// The little-endian 32-bit word at byte `at`.
pub fn le32(s: &[u8], at: usize) -> u32
    requires { at + 4 ≤ length s.now }
    ensures { result ≡ le_at s.now at 4 }
{
    byte(s, at)
        + byte(s, at + 1) * 0x100
        + byte(s, at + 2) * 0x1_0000
        + byte(s, at + 3) * 0x100_0000
}

// The little-endian 64-bit word at byte `at`.
pub fn le64(s: &[u8], at: usize) -> u64
    requires { at + 8 ≤ length s.now }
    ensures { result ≡ le_at s.now at 8 }
{
    let low = le32(s, at) as u64;
    let high = le32(s, at + 4) as u64;
    low + high * 0x1_0000_0000
}
