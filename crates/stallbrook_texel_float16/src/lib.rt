// The call exported to C for one texel of an image (02, f) in kind 2: passed on to `texel_numbers`. An archive of its own, so that the
// kind is a constant in it.
#![tactic(auto)]

ghost use Rattle.std.specs.Prelude.{◌≡◌, length};
ghost use Rattle.interpolation.specs.declared.Kind.TheVariants.{Float16};
ghost use Rattle.image_texel.specs.Asking.{asked_at};
ghost use Rattle.texel_numbers.specs.Calls.{texel_told, texel_out};

use interpolation::Kind;

// 0, the fault of the texel's block with the error colour in `out`, 44 with four zeros, or 5 with `out` as it was where it is not of four.
#[unsafe(no_mangle)]
pub extern "C" fn stallbrook_astc_texel_float16(
    footprint: u8,
    width: u32,
    height: u32,
    blocks: &[u8],
    x: u32,
    y: u32,
    out: &mut [u16],
) -> u8
    ensures value { result ≡ texel_told (asked_at footprint width height blocks.now Float16 x y) (length out.old) }
    ensures out_after { out.new ≡ texel_out (asked_at footprint width height blocks.now Float16 x y) out.old }
{
    texel_numbers::texel_words(footprint, width, height, blocks, Kind::Float16, x, y, out)
}
