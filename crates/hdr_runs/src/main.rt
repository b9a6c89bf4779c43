// Runs of the half floats, of the HDR endpoint modes and of kind 2's pairs: for each a sum over many inputs, which a second reckoning from 000,
// by other means, gives too (outside/vectors/make_hdr_runs).
#![tactic(auto)]

use encoding::Level;
use half_pair::HalfPair;
use hdr_endpoint::{Alphas, HdrPair};
use std::io;
use std::io::Write;

fn word<W: Write>(output: &mut W, name: &[u8], n: u64) -> io::Result<()> {
    output.write_all(name)?;
    program_io::print_decimal(output, n)
}

fn line<W: Write>(output: &mut W, name: &[u8], n: u64) -> io::Result<()> {
    word(output, name, n)?;
    output.write_all(b"\n")
}

// The sum, modulo 2^32, with one more number.
fn more(sum: u64, n: u16) -> u64 {
    (sum % 4294967296 * 31 + (n as u64) + 1) % 4294967296
}

fn end(sum: u64, e: [u16; 4]) -> u64 {
    more(more(more(more(sum, e[0]), e[1]), e[2]), e[3])
}

fn pair(sum: u64, p: HdrPair) -> u64 {
    let e0 = p.e0;
    let e1 = p.e1;
    end(end(sum, e0), e1)
}

// The next of a series of numbers below 2^31, and its bits 16 to 23.
fn next(x: u64) -> u64 {
    (x % 2147483648 * 1103515245 + 12345) % 2147483648
}

fn byte(x: u64) -> u8 {
    (x / 65536 % 256) as u8
}

// All 16-bit numbers.
fn halves<W: Write>(output: &mut W) -> io::Result<()> {
    let mut sum: u64 = 0;
    let mut lns: u64 = 0;
    for n in 0..65536u32 {
        let c = (n % 65536) as u16;
        sum = more(sum, half_float::unorm_half(c));
        lns = more(lns, half_float::lns_half(c));
    }
    line(output, b"unorm16 ", sum)?;
    line(output, b"lns ", lns)
}

// All pairs of bytes, in modes 2 and 3 and as mode 15's alphas.
fn bytes<W: Write>(output: &mut W) -> io::Result<()> {
    let mut two: u64 = 0;
    let mut three: u64 = 0;
    let mut alpha: u64 = 0;
    for n in 0..65536u32 {
        let x = (n / 256 % 256) as u8;
        let y = (n % 256) as u8;
        two = pair(two, hdr_endpoint::large_range(x, y));
        three = pair(three, hdr_endpoint::small_range(x, y));
        let a = hdr_endpoint::alphas_of(x, y);
        alpha = more(more(alpha, a.0), a.1);
    }
    line(output, b"mode 2 ", two)?;
    line(output, b"mode 3 ", three)?;
    line(output, b"mode 15 alphas ", alpha)
}

fn two_on(x: u64) -> u64 {
    next(next(x))
}

fn six_on(x: u64) -> u64 {
    two_on(two_on(two_on(x)))
}

// The next four of the series in mode 7, the next six in mode 11.
fn scaled(sum: u64, x: u64) -> u64 {
    let x0 = next(x);
    let x1 = next(x0);
    let x2 = next(x1);
    let x3 = next(x2);
    let p = hdr_endpoint::base_scale(byte(x0), byte(x1), byte(x2), byte(x3));
    pair(sum, p)
}

fn direct(sum: u64, x: u64) -> u64 {
    let x0 = next(x);
    let x1 = next(x0);
    let x2 = next(x1);
    let x3 = next(x2);
    let x4 = next(x3);
    let x5 = next(x4);
    let p = hdr_endpoint::direct(
        byte(x0),
        byte(x1),
        byte(x2),
        byte(x3),
        byte(x4),
        byte(x5),
        1920,
        1920,
    );
    pair(sum, p)
}

// So many of the series.
fn series<W: Write>(output: &mut W) -> io::Result<()> {
    let mut seven: u64 = 0;
    let mut eleven: u64 = 0;
    let mut x: u64 = 1;
    for n in 0..100000u32 {
        seven = scaled(seven, x);
        eleven = direct(eleven, x);
        x = six_on(x);
    }
    line(output, b"mode 7 ", seven)?;
    line(output, b"mode 11 ", eleven)
}

// Eighteen of the series.
fn levels(x: u64) -> [Level; 18] {
    let mut out = [Level(0); 18];
    let mut y = x;
    for i in 0..18 {
        y = next(y);
        out[i] = Level(byte(y));
    }
    out
}

fn flag(sum: u64, b: bool) -> u64 {
    if b { more(sum, 1) } else { more(sum, 0) }
}

fn half(sum: u64, p: HalfPair) -> u64 {
    let c0 = p.c0;
    let c1 = p.c1;
    flag(flag(end(end(sum, c0), c1), p.colour), p.alpha)
}

// The pairs of two partitions, of these modes, with the next eighteen of the series.
fn two_pairs(sum: u64, x: u64, first: u8, second: u8) -> u64 {
    let modes = [first, second, 0, 0];
    let numbers = levels(x);
    let ldr = color_endpoint::endpoint_table(modes, 2, numbers);
    let t = half_pair::half_table(modes, 2, numbers, ldr);
    half(half(sum, t[0]), t[1])
}

// All pairs of modes, so many times.
fn pairs<W: Write>(output: &mut W) -> io::Result<()> {
    let mut sum: u64 = 0;
    let mut x: u64 = 1;
    for n in 0..25600u32 {
        let first = (n / 16 % 16) as u8;
        let second = (n % 16) as u8;
        sum = two_pairs(sum, x, first, second);
        x = six_on(x);
    }
    line(output, b"pairs ", sum)
}

fn main(rt: HostRuntime) -> io::Result<()> {
    let output = &mut rt.stdout();
    halves(output)?;
    bytes(output)?;
    series(output)?;
    pairs(output)
}
