// The calls exported to C for a view and for one texel of an image (02, f) in kind 0: passed on to `texel_numbers`. An archive of its own, so that the
// kind is a constant in it.
#![tactic(auto)]

ghost use Rattle.std.specs.Prelude.{◌≡◌, length};
ghost use Rattle.interpolation.specs.declared.Kind.TheVariants.{Unorm16};
ghost use Rattle.image_texel.specs.Making.{view_refusal};
ghost use Rattle.image_texel.specs.Asking.{asked_at};
ghost use Rattle.texel_numbers.specs.Calls.{texel_told, texel_out};

use interpolation::Kind;

// What a view of these blocks is refused by: 1, 3 or 4, 0 for none.
#[unsafe(no_mangle)]
pub extern "C" fn stallbrook_astc_view_refusal(
    footprint: u8,
    width: u32,
    height: u32,
    blocks: &[u8],
) -> u8
    ensures { result ≡ view_refusal footprint width height (length blocks.now) }
{
    reason::refusal_told(image_texel::check_view(blocks.len(), footprint, width, height))
}

// 0, the fault of the texel's block with the error colour in `out`, 44 with four zeros, or 5 with `out` as it was where it is not of four.
#[unsafe(no_mangle)]
pub extern "C" fn stallbrook_astc_texel_unorm16(
    footprint: u8,
    width: u32,
    height: u32,
    blocks: &[u8],
    x: u32,
    y: u32,
    out: &mut [u16],
) -> u8
    ensures value { result ≡ texel_told (asked_at footprint width height blocks.now Unorm16 x y) (length out.old) }
    ensures out_after { out.new ≡ texel_out (asked_at footprint width height blocks.now Unorm16 x y) out.old }
{
    texel_numbers::texel_words(footprint, width, height, blocks, Kind::Unorm16, x, y, out)
}
