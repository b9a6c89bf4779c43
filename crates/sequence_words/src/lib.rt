// The bits of the groups of a sequence, each with the smallest code whose present digits are the wanted ones.
#![tactic(auto)]

ghost use Rattle.std.specs.Prelude.{◌≡◌, [], ◌∷◌, map, ◌+◌, ◌*◌, ◌/◌, ◌%◌, ◌^◌, ◌≤◌, ◌<◌, get_or, take, drop};
ghost use Rattle.bits.specs.Field.{stream};
ghost use Rattle.encoding.specs.Encoding.{sequence_bits};
ghost use Rattle.encoding.specs.declared.Encoding.TheVariants.{Bits, Trits, Quints};
ghost use Rattle.integer_sequence.specs.Writing.{code_of, packed, values};
ghost use Rattle.smallest_codes.specs.Smallest.{smallest_codes};
ghost use Rattle.sequence_words.specs.inner.Words.{group_word, Absent};

use encoding::Stored;

fn value(s: Stored) -> u64
    ensures { (result ≡ s.0) × (result < 256) }
{
    let x = s.0;
    x as u64
}

// Number i of the first n, 0 past them.
fn number_at(xs: [Stored; 64], i: usize, n: usize) -> u64
    requires { n ≤ 64 }
    ensures { (result ≡ get_or (take n (values xs)) i 0) × (result < 256) }
{
    if i < n {
        let x = xs[i];
        return value(x);
    }
    0
}

// The low w bits of x.
fn low(x: u64, w: u32) -> u64
    requires { w ≤ 8 }
    ensures { (result ≡ x % 2 ^ w) × (result < 2 ^ w) }
{
    x % (1 << w)
}

// A number's b low bits with its share of the code above, laid at bit p.
fn placed(share: u64, x: u64, b: u32, p: u32) -> u64
    requires { (share < 8) × (b ≤ 8) × (p ≤ 40) }
    ensures { (result ≡ (share * 2 ^ b + x % 2 ^ b) * 2 ^ p) × (result < 2 ^ 51) }
{
    ((share << b) + low(x, b)) << p
}

// The bits of a group with its code.
fn trit_word(code: u64, x0: u64, x1: u64, x2: u64, x3: u64, x4: u64, b: u32) -> u64
    requires { b ≤ 8 }
    ensures { result ≡ group_word Trits b code (x0 ∷ x1 ∷ x2 ∷ x3 ∷ x4 ∷ []) 5 }
{
    let i0 = placed(code % 4, x0, b, 0);
    let i1 = placed(code / 4 % 4, x1, b, b + 2);
    let i2 = placed(code / 16 % 2, x2, b, 2 * b + 4);
    let i3 = placed(code / 32 % 4, x3, b, 3 * b + 5);
    let i4 = placed(code / 128 % 2, x4, b, 4 * b + 7);
    i4 + (i3 + (i2 + (i1 + i0)))
}

fn quint_word(code: u64, x0: u64, x1: u64, x2: u64, b: u32) -> u64
    requires { b ≤ 8 }
    ensures { result ≡ group_word Quints b code (x0 ∷ x1 ∷ x2 ∷ []) 3 }
{
    let i0 = placed(code % 8, x0, b, 0);
    let i1 = placed(code / 8 % 4, x1, b, b + 3);
    let i2 = placed(code / 32 % 4, x2, b, 2 * b + 5);
    i2 + (i1 + i0)
}

// A whole group.
fn whole_trits(table: &[u8; 243], x0: u64, x1: u64, x2: u64, x3: u64, x4: u64, b: u32) -> u64
    requires { (b ≤ 8) × (table.now ≡ smallest_codes Trits 5) }
    ensures { result ≡ packed Trits b (x0 ∷ x1 ∷ x2 ∷ x3 ∷ x4 ∷ []) }
{
    let code = smallest_codes::five_trits(table, x0 >> b, x1 >> b, x2 >> b, x3 >> b, x4 >> b);
    trit_word(code, x0, x1, x2, x3, x4, b)
}

fn whole_quints(table: &[u8; 125], x0: u64, x1: u64, x2: u64, b: u32) -> u64
    requires { (b ≤ 8) × (table.now ≡ smallest_codes Quints 3) }
    ensures { result ≡ packed Quints b (x0 ∷ x1 ∷ x2 ∷ []) }
{
    let code = smallest_codes::three_quints(table, x0 >> b, x1 >> b, x2 >> b);
    quint_word(code, x0, x1, x2, b)
}

// The code of a cut group: m numbers, and 0 for those that are not there.
fn cut_trit_code(x0: u64, x1: u64, x2: u64, x3: u64, m: usize, b: u32) -> u64
    requires { (1 ≤ m) × (m ≤ 4) × (b ≤ 8) }
    ensures { result ≡ code_of Trits (map (λ x. x / 2 ^ b) (take m (x0 ∷ x1 ∷ x2 ∷ x3 ∷ 0 ∷ []))) }
{
    if m == 4 {
        return smallest_codes::four_trits(x0 >> b, x1 >> b, x2 >> b, x3 >> b);
    }
    if m == 3 {
        return smallest_codes::three_trits(x0 >> b, x1 >> b, x2 >> b);
    }
    if m == 2 {
        return smallest_codes::two_trits(x0 >> b, x1 >> b);
    }
    smallest_codes::one_trit(x0 >> b)
}

fn cut_quint_code(x0: u64, x1: u64, m: usize, b: u32) -> u64
    requires { (1 ≤ m) × (m ≤ 2) × (b ≤ 8) }
    ensures { result ≡ code_of Quints (map (λ x. x / 2 ^ b) (take m (x0 ∷ x1 ∷ 0 ∷ []))) }
{
    if m == 2 {
        return smallest_codes::two_quints(x0 >> b, x1 >> b);
    }
    smallest_codes::one_quint(x0 >> b)
}

// A cut group.
fn cut_trits(x0: u64, x1: u64, x2: u64, x3: u64, m: usize, b: u32) -> u64
    requires { (1 ≤ m) × (m ≤ 4) × (b ≤ 8) × Absent m (x0 ∷ x1 ∷ x2 ∷ x3 ∷ 0 ∷ []) }
    ensures { result ≡ packed Trits b (take m (x0 ∷ x1 ∷ x2 ∷ x3 ∷ 0 ∷ [])) }
{
    let code = cut_trit_code(x0, x1, x2, x3, m, b);
    trit_word(code, x0, x1, x2, x3, 0, b)
}

fn cut_quints(x0: u64, x1: u64, m: usize, b: u32) -> u64
    requires { (1 ≤ m) × (m ≤ 2) × (b ≤ 8) × Absent m (x0 ∷ x1 ∷ 0 ∷ []) }
    ensures { result ≡ packed Quints b (take m (x0 ∷ x1 ∷ 0 ∷ [])) }
{
    let code = cut_quint_code(x0, x1, m, b);
    quint_word(code, x0, x1, 0, b)
}

// The whole group that begins with number i, by the table of the codes, which a caller of many groups makes once.
pub fn five_trits(table: &[u8; 243], xs: [Stored; 64], i: usize, b: u32) -> u64
    requires { (i + 5 ≤ 64) × (b ≤ 8) × (table.now ≡ smallest_codes Trits 5) }
    ensures { result ≡ packed Trits b (take 5 (drop i (values xs))) }
{
    let x0 = value(xs[i]);
    let x1 = value(xs[i + 1]);
    let x2 = value(xs[i + 2]);
    let x3 = value(xs[i + 3]);
    let x4 = value(xs[i + 4]);
    whole_trits(table, x0, x1, x2, x3, x4, b)
}

pub fn three_quints(table: &[u8; 125], xs: [Stored; 64], i: usize, b: u32) -> u64
    requires { (i + 3 ≤ 64) × (b ≤ 8) × (table.now ≡ smallest_codes Quints 3) }
    ensures { result ≡ packed Quints b (take 3 (drop i (values xs))) }
{
    let x0 = value(xs[i]);
    let x1 = value(xs[i + 1]);
    let x2 = value(xs[i + 2]);
    whole_quints(table, x0, x1, x2, b)
}

// The cut group of the numbers from i on, of n.
pub fn last_trits(xs: [Stored; 64], i: usize, n: usize, b: u32) -> u64
    requires { (i < n) × (n < i + 5) × (n ≤ 64) × (b ≤ 8) }
    ensures { result ≡ packed Trits b (take 5 (drop i (take n (values xs)))) }
{
    let x0 = number_at(xs, i, n);
    let x1 = number_at(xs, i + 1, n);
    let x2 = number_at(xs, i + 2, n);
    let x3 = number_at(xs, i + 3, n);
    cut_trits(x0, x1, x2, x3, n - i, b)
}

pub fn last_quints(xs: [Stored; 64], i: usize, n: usize, b: u32) -> u64
    requires { (i < n) × (n < i + 3) × (n ≤ 64) × (b ≤ 8) }
    ensures { result ≡ packed Quints b (take 3 (drop i (take n (values xs)))) }
{
    let x0 = number_at(xs, i, n);
    let x1 = number_at(xs, i + 1, n);
    cut_quints(x0, x1, n - i, b)
}

// The bits of the m numbers from number i on, which have no digits.
pub fn bits_word(xs: [Stored; 64], i: usize, m: usize, b: u32) -> u64
    requires { (i + m ≤ 64) × (m ≤ 8) × (b ≤ 8) }
    ensures { result ≡ stream (sequence_bits Bits b) (λ k. get_or (values xs) (i + k) 0 % 2 ^ b) m }
{
    let mut word: u64 = 0;
    let mut p: u32 = 0;
    for k in 0..m {
        let x = xs[i + k];
        word = (low(value(x), b) << p) + word;
        p += b;
    }
    word
}
