// The call exported to C for PVRTC1, 4 bits per pixel.
#![tactic(auto)]

ghost use Rattle.std.specs.Prelude.{◌≡◌, length};
ghost use Rattle.pvrtc_texel.specs.Image.{image_refusal, image_out};

// An image of words to four bytes for each texel: 0, or the number of its refusal with `out` as it was.
#[unsafe(no_mangle)]
pub extern "C" fn stallbrook_pvrtc_decode_image(
    width: u32,
    height: u32,
    words: &[u8],
    out: &mut [u8],
) -> u8
    ensures value { result ≡ image_refusal width height (length words.now) (length out.old) }
    ensures out_after { out.new ≡ image_out width height words.now out.old }
{
    reason::refusal_told(pvrtc_image::decode_image(width, height, words, out))
}
