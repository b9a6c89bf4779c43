// One texel of an image into a lent list of four numbers, for callers without structs.
#![tactic(auto)]

ghost use Rattle.std.specs.Prelude.{◌≡◌, ◌≤◌, length};
ghost use Rattle.interpolation.specs.declared.Kind.TheVariants.{Srgb8};
ghost use Rattle.image_texel.specs.Asking.{asked_of, asked_at};
ghost use Rattle.texel_numbers.specs.Calls.{texel_told, texel_out};

use interpolation::{Kind, Texel};
use one_texel::OneTexel;
use reason::Refusal;

// The number told: the refusal, then 5 for a list that is not of four, then the block's fault.
fn told(answer: Result<OneTexel, Refusal>, places: usize) -> u8
    ensures { result ≡ texel_told (asked_of answer) places }
{
    match answer {
        Err(refusal) => refusal.into(),
        Ok(_) if places != 4 => 5,
        Ok(t) => t.fault,
    }
}

// The texel told, four zeros on a refusal.
fn texel_of(answer: Result<OneTexel, Refusal>) -> Texel
    ensures { result ≡ (asked_of answer).texel }
{
    match answer {
        Err(_) => Texel {
            r: 0,
            g: 0,
            b: 0,
            a: 0,
        },
        Ok(t) => t.texel,
    }
}

// The texel's four numbers into a list of four; another list stays as it was.
fn put_words(answer: Result<OneTexel, Refusal>, out: &mut [u16])
    ensures { out.new ≡ texel_out (asked_of answer) out.old }
{
    let t = texel_of(answer);
    if out.len() == 4 {
        out[0] = t.r;
        out[1] = t.g;
        out[2] = t.b;
        out[3] = t.a;
    }
}

fn put_bytes(answer: Result<OneTexel, Refusal>, out: &mut [u8])
    requires { let t = (asked_of answer).texel in (t.r ≤ 255) × (t.g ≤ 255) × (t.b ≤ 255) × (t.a ≤ 255) }
    ensures { out.new ≡ texel_out (asked_of answer) out.old }
{
    let t = texel_of(answer);
    let r = t.r as u8;
    let g = t.g as u8;
    let b = t.b as u8;
    let alpha = t.a as u8;
    if out.len() == 4 {
        out[0] = r;
        out[1] = g;
        out[2] = b;
        out[3] = alpha;
    }
}

// The texel in column x and row y, as numbers of 16 bits.
pub fn texel_words(
    footprint: u8,
    width: u32,
    height: u32,
    blocks: &[u8],
    kind: Kind,
    x: u32,
    y: u32,
    out: &mut [u16],
) -> u8
    ensures value { result ≡ texel_told (asked_at footprint width height blocks.now kind x y) (length out.old) }
    ensures out_after { out.new ≡ texel_out (asked_at footprint width height blocks.now kind x y) out.old }
{
    let answer = image_texel::texel_at(blocks, footprint, width, height, kind, x, y);
    let n = told(answer, out.len());
    put_words(answer, out);
    n
}

// The same in kind 1, as bytes.
pub fn texel_bytes(
    footprint: u8,
    width: u32,
    height: u32,
    blocks: &[u8],
    x: u32,
    y: u32,
    out: &mut [u8],
) -> u8
    ensures value { result ≡ texel_told (asked_at footprint width height blocks.now Srgb8 x y) (length out.old) }
    ensures out_after { out.new ≡ texel_out (asked_at footprint width height blocks.now Srgb8 x y) out.old }
{
    let answer = image_texel::asked_at(blocks, footprint, width, height, Kind::Srgb8, x, y);
    let n = told(answer, out.len());
    put_bytes(answer, out);
    n
}
