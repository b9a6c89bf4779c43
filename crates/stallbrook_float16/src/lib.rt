// The calls exported to C that decode a block and a whole .astc file in kind 2: four half floats for each texel, as their 16-bit patterns. A slice crosses as
// pointer and length.
#![tactic(auto)]

ghost use Rattle.std.specs.Prelude.{◌≡◌, length};
ghost use Rattle.interpolation.specs.declared.Kind.TheVariants.{Float16};
ghost use Rattle.one_block.specs.Calls.{block_told, block_out};
ghost use Rattle.file_numbers.specs.Calls.{file_number, file_shown, file_tally};

use interpolation::Kind;

// A block: the fault's number, the refusal's with `out` as it was, or 0.
#[unsafe(no_mangle)]
pub extern "C" fn stallbrook_astc_decode_block_float16(
    footprint: u8,
    block: &[u8],
    out: &mut [u16],
) -> u8
    ensures value { result ≡ block_told Float16 footprint block.now (length out.old) }
    ensures out_after { out.new ≡ block_out Float16 footprint block.now out.old }
{
    block_answer::number_told(one_block::decode_float16(footprint, block, out))
}

// A whole .astc file (02, a): 0 or the refusal's number with `out` as it was; `tally` as in the image calls.
#[unsafe(no_mangle)]
pub extern "C" fn stallbrook_astc_decode_file_float16(
    file: &[u8],
    out: &mut [u16],
    tally: &mut [u64],
) -> u8
    ensures value { result ≡ file_number Float16 file.now (length out.old) (length tally.old) }
    ensures out_after { out.new ≡ file_shown Float16 file.now out.old (length tally.old) }
    ensures tally_after { tally.new ≡ file_tally Float16 file.now (length out.old) tally.old }
{
    file_numbers::file_words(Kind::Float16, file, out, tally)
}
