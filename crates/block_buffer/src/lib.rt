// The lent buffer of a block's numbers, 16 bits each: room for the 216 texels of the largest block, of which a block fills the first.
#![tactic(auto)]

ghost use Rattle.std.specs.Prelude.{◌≡◌, ℕ, ◌+◌, ◌*◌, ◌≤◌, length};
ghost use Rattle.laws.specs.inner.Filled.{put_four};
ghost use Rattle.block_buffer.specs.inner.Painted.{painted};

use interpolation::Texel;

// Where the numbers of the texel in column x of row y begin, in rows of `width` texels.
pub fn place(width: u8, x: u8, y: u8) -> usize
    ensures { result ≡ 4 * (y * width + x) }
{
    4 * ((y as usize) * (width as usize) + x as usize)
}

// Four numbers of a texel at place i of the buffer.
pub fn put(out: &mut [u16; 864], i: usize, r: u16, g: u16, b: u16, a: u16)
    requires { i + 4 ≤ 864 }
    ensures { out.new ≡ put_four out.old i r g b a }
{
    out[i] = r;
    out[i + 1] = g;
    out[i + 2] = b;
    out[i + 3] = a;
}

// One texel everywhere, so many times.
pub fn flood(t: Texel, count: usize, out: &mut [u16; 864])
    requires { count ≤ 216 }
    ensures { (width : ℕ) → length out.old ≡ 864 → out.new ≡ painted width (λ x y. t) count out.old }
{
    for i in 0..count {
        put(out, 4 * i, t.r, t.g, t.b, t.a);
    }
}
