// Which partition a texel belongs to: the seeds are made once for a block, the pattern is asked at each texel.
#![tactic(auto)]

ghost use Rattle.std.specs.Prelude.{◌≡◌, ℕ, ◌+◌, ◌*◌, ◌%◌, ◌<◌, ◌≤◌, max, Bool, ◌==◌};
ghost use Rattle.laws.specs.Choice.{pick};
ghost use Rattle.laws.specs.Table.{tab};
ghost use Rattle.partition.specs.Hash.{hash_of};
ghost use Rattle.partition.specs.Select.{bit_shift, count_shift, sh1, sh2, sh3, seed_of, last_seed_of, first_largest, doubled, partition_of};
ghost use Rattle.partition.specs.inner.Seeds.{lane_by, lane_for, lane_unless, seeds_from, seeds_of, select_by, Pattern};
ghost use Rattle.partition.specs.inner.Layers.{lane_at_layer, layer_from, layer_of};

use std::num::{wrapping_add_u32, wrapping_sub_u32};

// One of the four sums that are compared: x and y count so many times, over an offset.
#[derive(Clone, Copy)]
pub struct Lane {
    pub x: u16,
    pub y: u16,
    pub offset: u16,
}

// What the pattern of a block is made of. An absent partition's lane is all 0.
#[derive(Clone, Copy)]
pub struct Seeds {
    pub a: Lane,
    pub b: Lane,
    pub c: Lane,
    pub d: Lane,
}

#[derive(Clone, Copy)]
struct ShiftPair {
    one: u32,
    two: u32,
}

fn hash52(seed: u32) -> u32
    ensures { result ≡ hash_of seed }
{
    let a = seed ^ (seed >> 15);
    let b = wrapping_sub_u32(a, a << 17);
    let c = wrapping_add_u32(b, b << 7);
    let d = wrapping_add_u32(c, c << 4);
    let e = d ^ (d >> 5);
    let f = wrapping_add_u32(e, e << 16);
    let g = f ^ (f >> 7);
    let h = g ^ (g >> 3);
    let i = h ^ (h << 6);
    i ^ (i >> 17)
}

fn bit_shift(seed: u32) -> u32
    ensures { (result ≡ bit_shift seed) × (result < 7) }
{
    if seed / 2 % 2 == 1 { 4 } else { 5 }
}

fn count_shift(count: u8) -> u32
    ensures { (result ≡ count_shift count) × (result < 7) }
{
    if count == 3 { 6 } else { 5 }
}

fn shifts(seed: u32, count: u8) -> ShiftPair
    ensures { ((result.one ≡ sh1 seed count) × (result.two ≡ sh2 seed count)) × ((result.one < 7) × (result.two < 7)) }
{
    let bit = bit_shift(seed);
    let three = count_shift(count);
    if seed % 2 == 1 {
        ShiftPair {
            one: bit,
            two: three,
        }
    } else {
        ShiftPair {
            one: three,
            two: bit,
        }
    }
}

// Four bits of the hash, squared and shifted.
fn seed_of(rnum: u32, k: u32, sh: u32) -> u32
    requires { (k < 32) × (sh < 7) }
    ensures { (result ≡ seed_of rnum k sh) × (result ≤ 225) }
{
    let n = (rnum >> k) % 16;
    (n * n) >> sh
}

// A small block's places count double.
fn doubled_seed(small: bool, seed: u32) -> u16
    requires { seed ≤ 255 }
    ensures { result ≡ doubled small seed }
{
    if small {
        (seed * 2) as u16
    } else {
        seed as u16
    }
}

fn lane_for(small: bool, p: u32, q: u32, t: u32) -> Lane
    requires { (p ≤ 225) × (q ≤ 225) }
    ensures { result ≡ lane_for small p q t }
{
    Lane {
        x: doubled_seed(small, p),
        y: doubled_seed(small, q),
        offset: (t % 64) as u16,
    }
}

fn lane_unless(absent: bool, small: bool, p: u32, q: u32, t: u32) -> Lane
    requires { (p ≤ 225) × (q ≤ 225) }
    ensures { result ≡ lane_unless absent small p q t }
{
    if absent {
        Lane {
            x: 0,
            y: 0,
            offset: 0,
        }
    } else {
        lane_for(small, p, q, t)
    }
}

fn seeds_from(small: bool, rnum: u32, sh1: u32, sh2: u32, count: u8) -> Seeds
    requires { (sh1 < 7) × (sh2 < 7) }
    ensures { result ≡ seeds_from small rnum sh1 sh2 count }
{
    let a = lane_unless(
        count < 2,
        small,
        seed_of(rnum, 0, sh1),
        seed_of(rnum, 4, sh2),
        rnum >> 14,
    );
    let b = lane_unless(
        count < 2,
        small,
        seed_of(rnum, 8, sh1),
        seed_of(rnum, 12, sh2),
        rnum >> 10,
    );
    let c = lane_unless(
        count < 3,
        small,
        seed_of(rnum, 16, sh1),
        seed_of(rnum, 20, sh2),
        rnum >> 6,
    );
    let d = lane_unless(
        count < 4,
        small,
        seed_of(rnum, 24, sh1),
        seed_of(rnum, 28, sh2),
        rnum >> 2,
    );
    Seeds { a, b, c, d }
}

// The seeds of a block with this partition index and so many partitions: with one there is nothing to choose, and no hash is made.
pub fn partition_seeds(index: u16, count: u8, small: bool) -> Seeds
    ensures value { result ≡ seeds_of index count small }
    ensures pattern { Pattern index count small result }
{
    if count < 2 {
        let none = Lane {
            x: 0,
            y: 0,
            offset: 0,
        };
        return Seeds {
            a: none,
            b: none,
            c: none,
            d: none,
        };
    }
    let seed = (index as u32) + ((count as u32) - 1) * 1024;
    let sh = shifts(seed, count);
    seeds_from(small, hash52(seed), sh.one, sh.two, count)
}

fn lane_at(l: Lane, x: u8, y: u8) -> u16
    ensures { result ≡ lane_by l x y }
{
    (((l.x as u32) * (x as u32) + (l.y as u32) * (y as u32) + (l.offset as u32)) % 64) as u16
}

fn larger(a: u16, b: u16) -> u16
    ensures { result ≡ max a b }
{
    if a >= b { a } else { b }
}

fn chosen(first: bool, m: u16, n: u16) -> u16
    ensures { result ≡ pick first m n }
{
    if first { m } else { n }
}

// The larger of each two, then of these: what is chosen hangs on no branch.
fn first_largest(a: u16, b: u16, c: u16, d: u16) -> u16
    ensures { result ≡ first_largest a b c d }
{
    chosen(
        larger(a, b) >= larger(c, d),
        chosen(a >= b, 0, 1),
        chosen(c >= d, 2, 3),
    )
}

// The partition of the texel at x, y.
pub fn partition_at(s: Seeds, x: u8, y: u8) -> u16
    ensures value { result ≡ select_by s x y }
    ensures by_index { (index count : ℕ) (small : Bool) → Pattern index count small s → result ≡ partition_of index count small x y 0 }
{
    let a = s.a;
    let b = s.b;
    let c = s.c;
    let d = s.d;
    first_largest(
        lane_at(a, x, y),
        lane_at(b, x, y),
        lane_at(c, x, y),
        lane_at(d, x, y),
    )
}

// The partitions of the first sixteen texels of row y, more than the widest block has. Sixteen each time, in 16 bits and without a branch:
// so many are found at once.
pub fn partition_row(s: Seeds, y: u8) -> [u16; 16]
    ensures value { result ≡ tab (λ x. select_by s x y) 16 }
    ensures by_index { (index count : ℕ) (small : Bool) → Pattern index count small s → result ≡ tab (λ x. partition_of index count small x y 0) 16 }
{
    let mut out = [0u16; 16];
    for x in 0..16 {
        out[x as usize] = partition_at(s, x, y);
    }
    out
}

// The same where there may be one partition only: then all are 0, and nothing is asked.
pub fn row_partitions(s: Seeds, partitions: u8, y: u8) -> [u16; 16]
    ensures { result ≡ tab (λ x. pick (partitions == 1) 0 (select_by s x y)) 16 }
{
    if partitions == 1 {
        [0u16; 16]
    } else {
        partition_row(s, y)
    }
}

// The shift of the seeds that z counts.
fn third_shift(seed: u32, count: u8) -> u32
    ensures { (result ≡ sh3 seed count) × (result < 7) }
{
    let sh = shifts(seed, count);
    if seed / 16 % 2 == 1 { sh.one } else { sh.two }
}

// The last seed: the top two bits of the hash below its low two, squared and shifted.
fn last_seed(rnum: u32, sh: u32) -> u32
    requires { sh < 7 }
    ensures { (result ≡ last_seed_of rnum sh) × (result ≤ 225) }
{
    let n = rnum % 4 * 4 + (rnum >> 30);
    (n * n) >> sh
}

// Only the low six bits of an offset count.
fn offset_at(offset: u16, r: u32, z: u16) -> u16
    requires { r ≤ 225 }
    ensures { result ≡ (offset + r * z) % 64 }
{
    (((offset as u32) + r * (z as u32)) % 64) as u16
}

fn lane_at_layer(absent: bool, l: Lane, r: u32, z: u16) -> Lane
    requires { r ≤ 225 }
    ensures { result ≡ lane_at_layer absent l r z }
{
    let x = l.x;
    let y = l.y;
    let offset = l.offset;
    if absent {
        return l;
    }
    Lane {
        x,
        y,
        offset: offset_at(offset, r, z),
    }
}

fn layer_from(s: Seeds, rnum: u32, sh3: u32, count: u8, z: u16) -> Seeds
    requires { sh3 < 7 }
    ensures { result ≡ layer_from s rnum sh3 count z }
{
    let one = s.a;
    let two = s.b;
    let three = s.c;
    let four = s.d;
    let a = lane_at_layer(count < 2, one, seed_of(rnum, 26, sh3), z);
    let b = lane_at_layer(count < 2, two, last_seed(rnum, sh3), z);
    let c = lane_at_layer(count < 3, three, seed_of(rnum, 18, sh3), z);
    let d = lane_at_layer(count < 4, four, seed_of(rnum, 22, sh3), z);
    Seeds { a, b, c, d }
}

// The seeds of a volume's layer z: by them `partition_at` and `partition_row` give the partitions of that layer.
pub fn layer_seeds(index: u16, count: u8, small: bool, z: u8) -> Seeds
    ensures value { result ≡ layer_of index count small z }
    ensures by_index { (x y : ℕ) → select_by result x y ≡ partition_of index count small x y z }
{
    let s = partition_seeds(index, count, small);
    if count < 2 {
        return s;
    }
    let seed = (index as u32) + ((count as u32) - 1) * 1024;
    let zz = doubled_seed(small, z as u32);
    layer_from(s, hash52(seed), third_shift(seed, count), count, zz)
}
