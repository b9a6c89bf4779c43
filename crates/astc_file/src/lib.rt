// .astc files: a whole file to the texels of its image, in each kind.
#![tactic(auto)]

ghost use Rattle.std.specs.Prelude.{◌≡◌, length};
ghost use Rattle.interpolation.specs.declared.Kind.TheVariants.{Unorm16, Srgb8, Float16};
ghost use Rattle.one_block.specs.Calls.{Words};
ghost use Rattle.image_layout.specs.Call.{told_of};
ghost use Rattle.astc_file.specs.File.{file_answer, file_told, file_out};

use image_layout::Tally;
use interpolation::Kind;
use reason::Refusal;

// A file in a kind of 16-bit numbers: kinds 0 and 2.
pub fn decode_file_words(kind: Kind, file: &[u8], out: &mut [u16]) -> Result<Tally, Refusal>
    requires { Words kind }
    ensures answer { file_answer kind file.now (length out.old) result }
    ensures told { told_of result ≡ file_told kind file.now (length out.old) }
    ensures image { out.new ≡ file_out kind file.now out.old }
{
    let h = astc_header::read_header(file)?;
    image::decode_image_words(kind, h.footprint, h.width, h.height, &file[16..], out)
}

// Kind 0: a file to four 16-bit numbers for each texel.
pub fn decode_file_unorm16(file: &[u8], out: &mut [u16]) -> Result<Tally, Refusal>
    ensures answer { file_answer Unorm16 file.now (length out.old) result }
    ensures told { told_of result ≡ file_told Unorm16 file.now (length out.old) }
    ensures image { out.new ≡ file_out Unorm16 file.now out.old }
{
    decode_file_words(Kind::Unorm16, file, out)
}

// Kind 2: a file to four half floats for each texel, as their 16-bit patterns.
pub fn decode_file_float16(file: &[u8], out: &mut [u16]) -> Result<Tally, Refusal>
    ensures answer { file_answer Float16 file.now (length out.old) result }
    ensures told { told_of result ≡ file_told Float16 file.now (length out.old) }
    ensures image { out.new ≡ file_out Float16 file.now out.old }
{
    decode_file_words(Kind::Float16, file, out)
}

// Kind 1: a file to four bytes for each texel, before the sRGB curve.
pub fn decode_file_srgb8(file: &[u8], out: &mut [u8]) -> Result<Tally, Refusal>
    ensures answer { file_answer Srgb8 file.now (length out.old) result }
    ensures told { told_of result ≡ file_told Srgb8 file.now (length out.old) }
    ensures image { out.new ≡ file_out Srgb8 file.now out.old }
{
    let h = astc_header::read_header(file)?;
    image::decode_image_srgb8(h.footprint, h.width, h.height, &file[16..], out)
}
