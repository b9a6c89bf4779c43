// The calls exported to C for BC7 (02, l).
#![tactic(auto)]

ghost use Rattle.std.specs.Prelude.{◌≡◌, length};
ghost use Rattle.bc7_calls.specs.Calls.{decode_told, decode_out};
ghost use Rattle.bc7_numbers.specs.Calls.{read_number, read_numbers, write_number, write_block};
ghost use Rattle.stallbrook_bc7.specs.Images.{bc7_image_number, bc7_image_shown, bc7_tally_shown};

// The texels of a block: 0, the fault 71 with zeros in `out`, or 4, 5 with `out` as it was.
#[unsafe(no_mangle)]
pub extern "C" fn stallbrook_bc7_decode_block(block: &[u8], out: &mut [u8]) -> u8
    ensures value { result ≡ decode_told block.now (length out.old) }
    ensures out_after { out.new ≡ decode_out block.now out.old }
{
    block_answer::number_told(bc7_calls::decode_bc7(block, out))
}

// A block's sheet as sixty numbers: 0, 4 or 71 with zeros in `numbers`, or 4, 5 with `numbers` as it was where it is not of sixty.
#[unsafe(no_mangle)]
pub extern "C" fn stallbrook_bc7_read_symbolic(block: &[u8], numbers: &mut [u8]) -> u8
    ensures value { result ≡ read_number block.now (length numbers.old) }
    ensures numbers_after { numbers.new ≡ read_numbers block.now numbers.old }
{
    bc7_numbers::read_numbers(block, numbers)
}

// The block of a sheet: 0, 72 or 73 with zeros in `block`, or 4, 5 with `block` as it was where a length is wrong.
#[unsafe(no_mangle)]
pub extern "C" fn stallbrook_bc7_write_symbolic(numbers: &[u8], block: &mut [u8]) -> u8
    ensures value { result ≡ write_number numbers.now (length block.old) }
    ensures block_after { block.new ≡ write_block numbers.now block.old }
{
    bc7_numbers::write_numbers(numbers, block)
}

// The texels of a picture: 0, or 3, 4, 5 with `out` as it was. `tally` gets the count of faulty blocks and the raster index and fault of the
// first one, zeros on a refusal; where it is not of 3 numbers the call is refused by 3, 4 or else 5, and writes nothing.
#[unsafe(no_mangle)]
pub extern "C" fn stallbrook_bc7_decode_image(
    width: u32,
    height: u32,
    blocks: &[u8],
    out: &mut [u8],
    tally: &mut [u64],
) -> u8
    ensures value { result ≡ bc7_image_number width height blocks.now (length out.old) (length tally.old) }
    ensures out_after { out.new ≡ bc7_image_shown width height blocks.now out.old (length tally.old) }
    ensures tally_after { tally.new ≡ bc7_tally_shown width height blocks.now (length out.old) tally.old }
{
    if tally.len() != 3 {
        return image_numbers::refusal_or_5(0, width, height, blocks.len(), out.len()).into();
    }
    let answer = bc7_image::decode_image_bc7(width, height, blocks, out);
    image_numbers::put_tally(image_numbers::tally_told(answer), tally);
    reason::refusal_told(answer)
}
