// The LDR colour endpoint modes, one function each, and the table of endpoint pairs.
#![tactic(auto)]

ghost use Rattle.std.specs.Prelude.{◌≡◌, ◌<◌, ◌≤◌, min, get_or};
ghost use Rattle.color_endpoint.specs.Modes.{
  low_luminance,
  high_luminance,
  mode0,
  mode1,
  mode4,
  mode5,
  mode6,
  mode8,
  mode9,
  mode10,
  mode12,
  mode13,
  pair_of,
  no_level,
  is_hdr,
};
ghost use Rattle.color_endpoint.specs.Table.{number_count, numbers_from, table_of};

use encoding::Level;
use endpoint_arithmetic::{BaseOffset, EndpointPair};

fn wide(n: u8) -> u32
    ensures { (result ≡ n) × (result < 256) }
{
    n as u32
}

fn mode_0(v: [Level; 8]) -> EndpointPair
    ensures { result ≡ mode0 v }
{
    endpoint_arithmetic::luminance_pair(v[0].0, v[1].0, 255, 255)
}

// Mode 1's L0.
fn low_luminance(v0: u8, v1: u8) -> u8
    ensures { result ≡ low_luminance v0 v1 }
{
    v1 / 64 * 64 + v0 / 4
}

// Mode 1's L1.
fn high_luminance(v0: u8, v1: u8) -> u8
    ensures { result ≡ high_luminance v0 v1 }
{
    let l1 = wide(low_luminance(v0, v1)) + wide(v1) % 64;
    if l1 < 255 { l1 as u8 } else { 255 }
}

fn mode_1(v: [Level; 8]) -> EndpointPair
    ensures { result ≡ mode1 v }
{
    let l0 = low_luminance(v[0].0, v[1].0);
    let l1 = high_luminance(v[0].0, v[1].0);
    endpoint_arithmetic::luminance_pair(l0, l1, 255, 255)
}

fn mode_4(v: [Level; 8]) -> EndpointPair
    ensures { result ≡ mode4 v }
{
    endpoint_arithmetic::luminance_pair(v[0].0, v[1].0, v[2].0, v[3].0)
}

fn mode_5(v: [Level; 8]) -> EndpointPair
    ensures { result ≡ mode5 v }
{
    let l = endpoint_arithmetic::bit_transfer(v[1], v[0]);
    let a = endpoint_arithmetic::bit_transfer(v[3], v[2]);
    endpoint_arithmetic::raised_pair(l, l, l, a)
}

fn mode_6(v: [Level; 8]) -> EndpointPair
    ensures { result ≡ mode6 v }
{
    endpoint_arithmetic::scaled_pair(v[0].0, v[1].0, v[2].0, v[3].0, 255, 255)
}

fn mode_8(v: [Level; 8]) -> EndpointPair
    ensures { result ≡ mode8 v }
{
    endpoint_arithmetic::direct_pair([v[0].0, v[2].0, v[4].0, 255], [v[1].0, v[3].0, v[5].0, 255])
}

fn mode_9(v: [Level; 8]) -> EndpointPair
    ensures { result ≡ mode9 v }
{
    let r = endpoint_arithmetic::bit_transfer(v[1], v[0]);
    let g = endpoint_arithmetic::bit_transfer(v[3], v[2]);
    let b = endpoint_arithmetic::bit_transfer(v[5], v[4]);
    let a = BaseOffset {
        base: 255,
        offset: 0,
    };
    endpoint_arithmetic::offset_pair(r, g, b, a)
}

fn mode_10(v: [Level; 8]) -> EndpointPair
    ensures { result ≡ mode10 v }
{
    endpoint_arithmetic::scaled_pair(v[0].0, v[1].0, v[2].0, v[3].0, v[4].0, v[5].0)
}

fn mode_12(v: [Level; 8]) -> EndpointPair
    ensures { result ≡ mode12 v }
{
    endpoint_arithmetic::direct_pair(
        [v[0].0, v[2].0, v[4].0, v[6].0],
        [v[1].0, v[3].0, v[5].0, v[7].0],
    )
}

fn mode_13(v: [Level; 8]) -> EndpointPair
    ensures { result ≡ mode13 v }
{
    let r = endpoint_arithmetic::bit_transfer(v[1], v[0]);
    let g = endpoint_arithmetic::bit_transfer(v[3], v[2]);
    let b = endpoint_arithmetic::bit_transfer(v[5], v[4]);
    let a = endpoint_arithmetic::bit_transfer(v[7], v[6]);
    endpoint_arithmetic::offset_pair(r, g, b, a)
}

// The pair of a mode; numbers past those that the mode takes are not looked at.
pub fn endpoint_pair(mode: u8, v: [Level; 8]) -> EndpointPair
    ensures { result ≡ pair_of mode v }
{
    match mode {
        0 => mode_0(v),
        1 => mode_1(v),
        4 => mode_4(v),
        5 => mode_5(v),
        6 => mode_6(v),
        8 => mode_8(v),
        9 => mode_9(v),
        10 => mode_10(v),
        12 => mode_12(v),
        13 => mode_13(v),
        _ => endpoint_arithmetic::zero_pair(),
    }
}

// How many numbers a mode takes.
pub fn number_count(mode: u8) -> u32
    ensures { (result ≡ number_count mode) × (result ≤ 128) }
{
    2 * (wide(mode) / 4 + 1)
}

// The number at i, 0 past the last.
fn level_at(levels: [Level; 18], i: u32) -> Level
    ensures { result ≡ get_or levels i no_level }
{
    let k = i as usize;
    if k < 18 { levels[k] } else { Level(0) }
}

// Eight numbers from start on.
pub fn numbers_from(levels: [Level; 18], start: u32) -> [Level; 8]
    requires { start < 1024 }
    ensures { result ≡ numbers_from levels start }
{
    [
        level_at(levels, start),
        level_at(levels, start + 1),
        level_at(levels, start + 2),
        level_at(levels, start + 3),
        level_at(levels, start + 4),
        level_at(levels, start + 5),
        level_at(levels, start + 6),
        level_at(levels, start + 7),
    ]
}

// How many partitions of the table are filled.
pub fn filled(count: u8) -> usize
    ensures { result ≡ min count 4 }
{
    if count < 4 { count as usize } else { 4 }
}

// The pairs of four partitions, from that of the first alone.
fn later_pairs(
    modes: [u8; 4],
    count: u8,
    levels: [Level; 18],
    first: [EndpointPair; 4],
) -> [EndpointPair; 4]
    requires { first ≡ table_of modes 1 levels }
    ensures { result ≡ table_of modes count levels }
{
    let n = filled(count);
    if n == 0 {
        return [endpoint_arithmetic::zero_pair(); 4];
    }
    let mut t = first;
    let mut start = number_count(modes[0]);
    for p in 1..n {
        let mode = modes[p];
        t[p] = endpoint_pair(mode, numbers_from(levels, start));
        start += number_count(mode);
    }
    t
}

// The pairs of four partitions, those past the count zeros. Most blocks have one partition, whose numbers are the first eight.
pub fn endpoint_table(modes: [u8; 4], count: u8, levels: [Level; 18]) -> [EndpointPair; 4]
    ensures { result ≡ table_of modes count levels }
{
    let mut t = [endpoint_arithmetic::zero_pair(); 4];
    t[0] = endpoint_pair(modes[0], numbers_from(levels, 0));
    if count == 1 {
        return t;
    }
    later_pairs(modes, count, levels, t)
}

// Bit m of 51340 is 1 for the HDR modes: 2, 3, 7, 11, 14 and 15.
pub fn is_hdr(mode: u8) -> bool
    ensures { result ≡ is_hdr mode }
{
    (mode < 16) & ((51340u32 >> (mode % 16)) % 2 == 1)
}
