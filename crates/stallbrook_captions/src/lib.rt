// The calls exported to C for the best grey captions.
#![tactic(auto)]

ghost use Rattle.std.specs.Prelude.{◌≡◌, length};
ghost use Rattle.caption_image.specs.Image.{caption_image_refusal, caption_image_out, caption_block_refusal, caption_block_out};

// The block of sixteen wanted greys: 0, or 4, 5 with `block` as it was where a length is wrong.
#[unsafe(no_mangle)]
pub extern "C" fn stallbrook_astc_caption_block(
    e0: u8,
    e1: u8,
    wanted: &[u8],
    block: &mut [u8],
) -> u8
    ensures value { result ≡ caption_block_refusal (length block.old) (length wanted.now) }
    ensures block_after { block.new ≡ caption_block_out e0 e1 wanted.now block.old }
{
    reason::refusal_told(caption_image::caption_into(e0, e1, wanted, block))
}

// The blocks of an image: 0, or the refusal's number with `blocks` as it was.
#[unsafe(no_mangle)]
pub extern "C" fn stallbrook_astc_caption_image(
    e0: u8,
    e1: u8,
    width: u32,
    height: u32,
    wanted: &[u8],
    blocks: &mut [u8],
) -> u8
    ensures value { result ≡ caption_image_refusal width height (length blocks.old) (length wanted.now) }
    ensures blocks_after { blocks.new ≡ caption_image_out e0 e1 width height wanted.now blocks.old }
{
    reason::refusal_told(caption_image::caption_image(e0, e1, width, height, wanted, blocks))
}
