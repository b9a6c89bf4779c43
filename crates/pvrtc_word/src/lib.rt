// A word of PVRTC1, 4 bits per pixel: its colours, four channels in one number each, and a texel from such numbers and its modulation.
#![tactic(auto)]

ghost use Rattle.std.specs.Prelude.{◌≡◌, ℕ, ◌+◌, ◌*◌, ◌≤◌, ◌<◌, eqb};
ghost use Rattle.pvrtc_texel.specs.Word.{three_to_five, four_to_five, colour_a, colour_b, punch_through, modulation_at, code_weight, modulation_weight, punched};
ghost use Rattle.pvrtc_texel.specs.Texel.{unorm8, modulated};
ghost use Rattle.pvrtc_word.specs.inner.Lanes.{lanes, lanes_of, lane, byte_of, rgba_of};
ghost use Rattle.laws.specs.Choice.{pick, both};

// The four channels of a texel.
#[derive(Clone, Copy)]
pub struct Rgba {
    pub r: u8,
    pub g: u8,
    pub b: u8,
    pub a: u8,
}

// A channel of three bits as one of five.
fn three_to_five(v: u64) -> u64
    requires { v < 8 }
    ensures { (result ≡ three_to_five v) × (result ≤ 31) }
{
    v * 4 + v / 2
}

// A channel of four bits as one of five.
fn four_to_five(v: u64) -> u64
    requires { v < 16 }
    ensures { (result ≡ four_to_five v) × (result ≤ 31) }
{
    v * 2 + v / 8
}

// Four channels in one number, sixteen bits for each.
fn pack(r: u64, g: u64, b: u64, a: u64) -> u64
    requires { (r ≤ 31) × (g ≤ 31) × (b ≤ 31) × (a ≤ 15) }
    ensures { result ≡ lanes_of r g b a }
{
    r + g * 65536 + b * 4294967296 + a * 281474976710656
}

// Colour A of a word.
pub fn colour_a(w: u64) -> u64
    ensures { result ≡ lanes (colour_a w) }
{
    if (w >> 47) % 2 == 1 {
        return pack(
            (w >> 42) % 32,
            (w >> 37) % 32,
            four_to_five((w >> 33) % 16),
            15,
        );
    }
    let r = four_to_five((w >> 40) % 16);
    let g = four_to_five((w >> 36) % 16);
    let b = three_to_five((w >> 33) % 8);
    pack(r, g, b, (w >> 44) % 8 * 2)
}

// Colour B of a word.
pub fn colour_b(w: u64) -> u64
    ensures { result ≡ lanes (colour_b w) }
{
    if (w >> 63) % 2 == 1 {
        return pack((w >> 58) % 32, (w >> 53) % 32, (w >> 48) % 32, 15);
    }
    let r = four_to_five((w >> 56) % 16);
    let g = four_to_five((w >> 52) % 16);
    let b = four_to_five((w >> 48) % 16);
    pack(r, g, b, (w >> 60) % 8 * 2)
}

// Whether a word's texels can be punched.
fn punch_through(w: u64) -> bool
    ensures { result ≡ punch_through w }
{
    (w >> 32) % 2 == 1
}

// The modulation bits of a word for the pixel offset (x, y).
fn modulation(w: u64, x: u64, y: u64) -> u64
    requires { (x < 4) × (y < 4) }
    ensures { (result ≡ modulation_at w x y) × (result < 4) }
{
    (w >> (2 * (4 * y + x))) % 4
}

// The weight of colour B: 0, 4, 4, 8 with punch-through, else 0, 3, 5, 8.
fn weight(punch: bool, m: u64) -> u64
    requires { m < 4 }
    ensures { (result ≡ code_weight punch m) × (result ≤ 8) }
{
    if punch {
        return (m + 1) / 2 * 4;
    }
    2 * m + (m + 1) / 2
}

// Whether a texel with these modulation bits is punched.
fn is_punched(punch: bool, m: u64) -> bool
    ensures { result ≡ both punch (eqb m 2) }
{
    punch && m == 2
}

// Both colours' values, colour B's with this weight of eight.
fn modulate(weight: u64, a: u64, b: u64) -> u8
    requires weight_bound { (weight ≤ 8) × (a < 131072) × (b < 131072) }
    requires b_bound { modulated weight a b ≤ 255 }
    ensures { result ≡ modulated weight a b }
{
    ((a * (8 - weight) + b * weight) / 8) as u8
}

// A texel's byte of red, green or blue, from the channel's interpolated samples.
fn colour_byte(weight: u64, a: u64, b: u64) -> u8
    requires weight_bound { (weight ≤ 8) × (a < 65536) × (b < 65536) }
    requires b_bound { modulated weight (unorm8 0 a) (unorm8 0 b) ≤ 255 }
    ensures { result ≡ modulated weight (unorm8 0 a) (unorm8 0 b) }
{
    modulate(weight, a / 2 + a / 64, b / 2 + b / 64)
}

// A texel's byte of alpha: 0 where it is punched.
fn alpha_byte(clear: bool, weight: u64, a: u64, b: u64) -> u8
    requires weight_bound { (weight ≤ 8) × (a < 65536) × (b < 65536) }
    requires b_bound { modulated weight (unorm8 3 a) (unorm8 3 b) ≤ 255 }
    ensures { result ≡ pick clear 0 (modulated weight (unorm8 3 a) (unorm8 3 b)) }
{
    if clear {
        return 0;
    }
    modulate(weight, a + a / 16, b + b / 16)
}

// The texel at offset (x, y) of a word, from the interpolated samples of both colours.
pub fn texel_of(a: u64, b: u64, w: u64, x: u64, y: u64) -> Rgba
    requires x_bound { (x < 4) × (y < 4) }
    requires by_index { (c : ℕ) → c < 4 → modulated (modulation_weight w x y) (unorm8 c (lane a c)) (unorm8 c (lane b c)) ≤ 255 }
    ensures { result ≡ rgba_of (byte_of a b (modulation_weight w x y) (punched w x y)) }
{
    let punch = punch_through(w);
    let m = modulation(w, x, y);
    let k = weight(punch, m);
    let red = colour_byte(k, a % 65536, b % 65536);
    let green = colour_byte(k, (a >> 16) % 65536, (b >> 16) % 65536);
    let blue = colour_byte(k, (a >> 32) % 65536, (b >> 32) % 65536);
    let clear = is_punched(punch, m);
    let alpha = alpha_byte(clear, k, (a >> 48) % 65536, (b >> 48) % 65536);
    Rgba {
        r: red,
        g: green,
        b: blue,
        a: alpha,
    }
}
