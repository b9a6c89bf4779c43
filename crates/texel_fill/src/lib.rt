// One texel over a run of a picture: what a row of a block shows that has one colour, or a fault. Four texels at a time.
#![tactic(auto)]

ghost use Rattle.std.specs.Prelude.{◌≡◌, ◌+◌, ◌*◌, ◌/◌, ◌%◌, ◌≤◌, length};
ghost use Rattle.laws.specs.inner.Filled.{put_four};
ghost use Rattle.interpolation.specs.declared.Kind.TheVariants.{Unorm16, Srgb8};
ghost use Rattle.interpolation.specs.Expansion.{shown_of};
ghost use Rattle.picture_regions.specs.inner.Regions.{Pasted};
ghost use Rattle.texel_fill.specs.inner.Everywhere.{everywhere};

use interpolation::Texel;

// A texel's numbers at place i.
fn put_numbers(out: &mut [u16], i: usize, t: Texel)
    requires { i + 4 ≤ length out.old }
    ensures { out.new ≡ put_four out.old i t.r t.g t.b t.a }
{
    out[i] = t.r;
    out[i + 1] = t.g;
    out[i + 2] = t.b;
    out[i + 3] = t.a;
}

// Four times from place i on.
fn four_numbers(t: Texel, i: usize, out: &mut [u16])
    requires { i + 16 ≤ length out.old }
    ensures { Pasted (shown_of Unorm16) (everywhere t) 0 16 out.old i out.new }
{
    put_numbers(out, i, t);
    put_numbers(out, i + 4, t);
    put_numbers(out, i + 8, t);
    put_numbers(out, i + 12, t);
}

// Less than four times, at the edge of a picture.
fn few_numbers(t: Texel, at: usize, n: usize, out: &mut [u16])
    requires { (n ≤ 3) × (at + 4 * n ≤ length out.old) }
    ensures { Pasted (shown_of Unorm16) (everywhere t) 0 (4 * n) out.old at out.new }
{
    for i in 0..n {
        put_numbers(out, at + 4 * i, t);
    }
}

// So many times from place `at` on: the first four, the middle four, and the last four, which may lie over those before them.
pub fn fill_numbers(t: Texel, at: usize, n: usize, out: &mut [u16])
    requires { (n ≤ 12) × (at + 4 * n ≤ length out.old) }
    ensures { Pasted (shown_of Unorm16) (everywhere t) 0 (4 * n) out.old at out.new }
{
    if n < 4 {
        few_numbers(t, at, n, out);
        return;
    }
    four_numbers(t, at, out);
    if n == 4 {
        return;
    }
    if n <= 8 {
        four_numbers(t, at + 4 * (n - 4), out);
        return;
    }
    four_numbers(t, at + 16, out);
    four_numbers(t, at + 4 * (n - 4), out);
}

// The top bytes of a texel's numbers in one number, the first in bits 7..0: made once for all places.
fn byte_word(t: Texel) -> u32
    ensures { (result % 256 ≡ t.r / 256) × (result / 256 % 256 ≡ t.g / 256) × (result / 65536 % 256 ≡ t.b / 256) × (result / 16777216 ≡ t.a / 256) }
{
    let r = interpolation::top_byte(t.r) as u32;
    let g = interpolation::top_byte(t.g) as u32;
    let b = interpolation::top_byte(t.b) as u32;
    let a = interpolation::top_byte(t.a) as u32;
    r + 256 * g + 65536 * b + 16777216 * a
}

// The four bytes of a number at place i, as one store. From here on bytes stand beside 16-bit numbers: `Pasted` speaks of lists of numbers,
// and the elements of a slice of a type parameter are none.
fn put_bytes(out: &mut [u8], i: usize, w: u32)
    requires { i + 4 ≤ length out.old }
    ensures { out.new ≡ put_four out.old i (w % 256) (w / 256 % 256) (w / 65536 % 256) (w / 16777216) }
{
    out[i] = (w % 256) as u8;
    out[i + 1] = (w / 256 % 256) as u8;
    out[i + 2] = (w / 65536 % 256) as u8;
    out[i + 3] = (w / 16777216) as u8;
}

// Four times from place i on.
fn four_bytes(t: Texel, i: usize, out: &mut [u8])
    requires { i + 16 ≤ length out.old }
    ensures { Pasted (shown_of Srgb8) (everywhere t) 0 16 out.old i out.new }
{
    let w = byte_word(t);
    put_bytes(out, i, w);
    put_bytes(out, i + 4, w);
    put_bytes(out, i + 8, w);
    put_bytes(out, i + 12, w);
}

// Less than four times, at the edge of a picture.
fn few_bytes(t: Texel, at: usize, n: usize, out: &mut [u8])
    requires { (n ≤ 3) × (at + 4 * n ≤ length out.old) }
    ensures { Pasted (shown_of Srgb8) (everywhere t) 0 (4 * n) out.old at out.new }
{
    for i in 0..n {
        put_bytes(out, at + 4 * i, byte_word(t));
    }
}

// The same in bytes.
pub fn fill_bytes(t: Texel, at: usize, n: usize, out: &mut [u8])
    requires { (n ≤ 12) × (at + 4 * n ≤ length out.old) }
    ensures { Pasted (shown_of Srgb8) (everywhere t) 0 (4 * n) out.old at out.new }
{
    if n < 4 {
        few_bytes(t, at, n, out);
        return;
    }
    four_bytes(t, at, out);
    if n == 4 {
        return;
    }
    if n <= 8 {
        four_bytes(t, at + 4 * (n - 4), out);
        return;
    }
    four_bytes(t, at + 16, out);
    four_bytes(t, at + 4 * (n - 4), out);
}
