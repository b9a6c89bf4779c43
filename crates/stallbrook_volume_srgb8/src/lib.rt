// The call exported to C that decodes a volume picture (02, h) in kind 1: four bytes for each texel, before the sRGB curve. An archive of its own, so that kind and
// reading are constants in it. A slice crosses as pointer and length.
#![tactic(auto)]

ghost use Rattle.std.specs.Prelude.{◌≡◌, length};
ghost use Rattle.interpolation.specs.declared.Kind.TheVariants.{Srgb8};
ghost use Rattle.volume_numbers.specs.Calls.{volume_number, volume_shown, tally_shown};

use block_reading::Reading;

// A volume: 0 or the refusal's number with `out` as it was. `tally` gets the count of faulty blocks and the index and fault of
// the first one, zeros on a refusal; where it is not of 3 numbers the call is refused by 1, 3, 4 or else 5, and writes nothing.
#[unsafe(no_mangle)]
pub extern "C" fn stallbrook_astc_decode_volume_srgb8(
    footprint: u8,
    width: u32,
    height: u32,
    depth: u32,
    blocks: &[u8],
    out: &mut [u8],
    tally: &mut [u64],
) -> u8
    ensures value { result ≡ volume_number footprint Srgb8 width height depth blocks.now (length out.old) (length tally.old) }
    ensures out_after { out.new ≡ volume_shown footprint Srgb8 width height depth blocks.now out.old (length tally.old) }
    ensures tally_after { tally.new ≡ tally_shown footprint Srgb8 width height depth blocks.now (length out.old) tally.old }
{
    volume_numbers::volume_srgb8(
        Reading::Ordinary,
        footprint,
        width,
        height,
        depth,
        blocks,
        out,
        tally,
    )
}
