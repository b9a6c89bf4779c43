// The sixteen bytes of a block as one number of 128 bits: fields of it, its reverse, and the bytes again.
#![tactic(auto)]

ghost use Rattle.std.specs.Prelude.{◌≡◌, ◌+◌, ◌*◌, ◌/◌, ◌%◌, ◌^◌, ◌≤◌, ◌<◌, min, length};
ghost use Rattle.bits.specs.Field.{field, reverse};
ghost use Rattle.bits.specs.Block.{number_of, bytes_of, block_number};

// The 128 bits of a block (Arm: physical block), low and high half.
#[derive(Clone, Copy)]
pub struct PhysicalBlock {
    pub lo: u64,
    pub hi: u64,
}

fn wide(x: u8) -> u64
    ensures { (result ≡ x) × (result < 256) }
{
    x as u64
}

// Byte k of s, and 0 past its end.
fn byte_at(s: &[u8], k: usize) -> u64
    ensures { result ≡ field (number_of s.now) (8 * k) 8 }
{
    if k < s.len() { wide(s[k]) } else { 0 }
}

// The eight bytes of s from byte k on, all of them there: one load of the processor.
fn whole_word(s: &[u8], k: usize) -> u64
    requires { k + 8 ≤ length s.now }
    ensures { result ≡ field (number_of s.now) (8 * k) 64 }
{
    wide(s[k])
        + 256 * wide(s[k + 1])
        + 65536 * wide(s[k + 2])
        + 16777216 * wide(s[k + 3])
        + 4294967296 * wide(s[k + 4])
        + 1099511627776 * wide(s[k + 5])
        + 281474976710656 * wide(s[k + 6])
        + 72057594037927936 * wide(s[k + 7])
}

// The same, byte by byte.
fn cut_word(s: &[u8], k: usize) -> u64
    requires { k ≤ 8 }
    ensures { result ≡ field (number_of s.now) (8 * k) 64 }
{
    let mut word: u64 = 0;
    for left in (0..8).rev() {
        word = word * 256 + byte_at(s, k + left);
    }
    word
}

// The eight bytes of s from byte k on; those past its end count 0.
fn word_of(s: &[u8], k: usize) -> u64
    requires { k ≤ 8 }
    ensures { result ≡ field (number_of s.now) (8 * k) 64 }
{
    if k + 8 <= s.len() {
        return whole_word(s, k);
    }
    cut_word(s, k)
}

// The block of the first sixteen bytes of s; bytes that are not there count 0.
pub fn load(s: &[u8]) -> PhysicalBlock
    ensures { block_number result ≡ field (number_of s.now) 0 128 }
{
    let lo = word_of(s, 0);
    let hi = word_of(s, 8);
    PhysicalBlock { lo, hi }
}

// The low w bits of a word.
fn low_bits(x: u64, w: u32) -> u64
    ensures { result ≡ field x 0 w }
{
    if w < 64 { x % (1 << w) } else { x }
}

// The 64 bits of a block from bit p of its low half on.
fn across(b: PhysicalBlock, p: u32) -> u64
    requires { p < 64 }
    ensures { result ≡ field (block_number b) p 64 }
{
    let lo = b.lo;
    let hi = b.hi;
    (hi << (63 - p) << 1) + (lo >> p)
}

// The 64 bits of a block from bit p on.
pub fn word_at(b: PhysicalBlock, p: u32) -> u64
    ensures { result ≡ field (block_number b) p 64 }
{
    let hi = b.hi;
    if p < 64 {
        return across(b, p);
    }
    if p < 128 {
        return hi >> (p - 64);
    }
    0
}

// The w bits of a block from bit p on; of a wider field the low 64 bits.
pub fn field_at(b: PhysicalBlock, p: u32, w: u32) -> u64
    ensures { result ≡ field (block_number b) p (min w 64) }
{
    low_bits(word_at(b, p), w)
}

// Byte k of a block.
fn byte_of(b: PhysicalBlock, k: usize) -> u8
    requires { k < 16 }
    ensures { result ≡ field (block_number b) (8 * k) 8 }
{
    (word_at(b, (8 * k) as u32) % 256) as u8
}

// The bits of a block from bit p of its low half on.
pub fn later(b: PhysicalBlock, p: u32) -> PhysicalBlock
    requires { p < 64 }
    ensures { block_number result ≡ block_number b / 2 ^ p }
{
    let hi = b.hi;
    let word = across(b, p);
    PhysicalBlock {
        lo: word,
        hi: hi >> p,
    }
}

// The bits of a block from bit p on.
fn shifted(b: PhysicalBlock, p: u32) -> PhysicalBlock
    ensures { block_number result ≡ block_number b / 2 ^ p }
{
    if p < 64 {
        return later(b, p);
    }
    let lo = word_at(b, p);
    PhysicalBlock { lo, hi: 0 }
}

// The first w bits of a block.
fn first_bits(b: PhysicalBlock, w: u32) -> PhysicalBlock
    ensures { block_number result ≡ block_number b % 2 ^ w }
{
    let lo = b.lo;
    let hi = b.hi;
    if w < 64 {
        return PhysicalBlock {
            lo: low_bits(lo, w),
            hi: 0,
        };
    }
    PhysicalBlock {
        lo,
        hi: low_bits(hi, w - 64),
    }
}

// The w bits of a block from bit p on, as a block.
pub fn part(b: PhysicalBlock, p: u32, w: u32) -> PhysicalBlock
    ensures { block_number result ≡ field (block_number b) p w }
{
    first_bits(shifted(b, p), w)
}

// A block with no bits from bit p on, and from there on the number v; what does not fit is cut off.
fn on_top(a: PhysicalBlock, p: u32, v: u64) -> PhysicalBlock
    requires { block_number a < 2 ^ p }
    ensures { block_number result ≡ (block_number a + v * 2 ^ p) % 2 ^ 128 }
{
    let lo = a.lo;
    let hi = a.hi;
    if 128 <= p {
        return a;
    }
    if p == 0 {
        return PhysicalBlock { lo: v, hi: 0 };
    }
    if p < 64 {
        return PhysicalBlock {
            lo: lo + (v << p),
            hi: v >> (64 - p),
        };
    }
    PhysicalBlock {
        lo,
        hi: hi + (v << (p - 64)),
    }
}

// The bits of a block below bit p, and from there on the number v; what does not fit is cut off.
pub fn append(b: PhysicalBlock, p: u32, v: u64) -> PhysicalBlock
    ensures { block_number result ≡ (field (block_number b) 0 p + v * 2 ^ p) % 2 ^ 128 }
{
    on_top(part(b, 0, p), p, v)
}

// The sixteen bytes of a block.
pub fn store(b: PhysicalBlock) -> [u8; 16]
    ensures { result ≡ bytes_of 16 (block_number b) }
{
    let mut s = [0u8; 16];
    for k in 0..16 {
        s[k] = byte_of(b, k);
    }
    s
}

// Bits in reverse: each half in reverse, and the halves exchanged.
fn reverse_pair(x: u8) -> u8
    requires { x < 4 }
    ensures { (result ≡ reverse 2 x) × (result < 4) }
{
    x % 2 * 2 + x / 2
}

fn reverse_nibble(x: u8) -> u8
    requires { x < 16 }
    ensures { (result ≡ reverse 4 x) × (result < 16) }
{
    reverse_pair(x % 4) * 4 + reverse_pair(x / 4)
}

fn reverse_byte(x: u8) -> u16
    ensures { (result ≡ reverse 8 x) × (result < 256) }
{
    (reverse_nibble(x % 16) * 16 + reverse_nibble(x / 16)) as u16
}

fn reverse_16(x: u16) -> u32
    ensures { (result ≡ reverse 16 x) × (result < 65536) }
{
    (reverse_byte((x % 256) as u8) * 256 + reverse_byte((x / 256) as u8)) as u32
}

fn reverse_32(x: u32) -> u64
    ensures { (result ≡ reverse 32 x) × (result < 4294967296) }
{
    (reverse_16((x % 65536) as u16) * 65536 + reverse_16((x / 65536) as u16)) as u64
}

fn reverse_word(x: u64) -> u64
    ensures { result ≡ reverse 64 x }
{
    reverse_32((x % 4294967296) as u32) * 4294967296 + reverse_32((x / 4294967296) as u32)
}

// A block in reverse: its fields upward are those of the block downward from bit 127.
pub fn reversed(b: PhysicalBlock) -> PhysicalBlock
    ensures { block_number result ≡ reverse 128 (block_number b) }
{
    let lo = reverse_word(b.hi);
    let hi = reverse_word(b.lo);
    PhysicalBlock { lo, hi }
}
