// Whole .astc files over lent lists, with the tally of the image calls.
#![tactic(auto)]

ghost use Rattle.std.specs.Prelude.{◌≡◌, length};
ghost use Rattle.interpolation.specs.declared.Kind.TheVariants.{Srgb8};
ghost use Rattle.one_block.specs.Calls.{Words};
ghost use Rattle.reason.specs.Numbers.{refusal_number};
ghost use Rattle.astc_header.specs.Header.{header_refusal};
ghost use Rattle.image_numbers.specs.Calls.{refusal_or5};
ghost use Rattle.file_numbers.specs.Calls.{file_number, file_shown, file_tally};

use interpolation::Kind;
use reason::Refusal;

// The first refusal of a file, else 5.
fn file_refusal_or_5(file: &[u8]) -> Refusal
    ensures { refusal_number result ≡ refusal_or5 (header_refusal file.now) }
{
    match astc_header::read_header(file) {
        Err(refusal) => refusal,
        Ok(_) => Refusal::Places,
    }
}

// A whole file in a kind of 16-bit numbers, with its tally.
pub fn file_words(kind: Kind, file: &[u8], out: &mut [u16], tally: &mut [u64]) -> u8
    requires { Words kind }
    ensures value { result ≡ file_number kind file.now (length out.old) (length tally.old) }
    ensures out_after { out.new ≡ file_shown kind file.now out.old (length tally.old) }
    ensures tally_after { tally.new ≡ file_tally kind file.now (length out.old) tally.old }
{
    if tally.len() != 3 {
        return file_refusal_or_5(file).into();
    }
    let answer = astc_file::decode_file_words(kind, file, out);
    image_numbers::put_tally(image_numbers::tally_told(answer), tally);
    reason::refusal_told(answer)
}

// A whole file in kind 1, with its tally.
pub fn file_srgb8(file: &[u8], out: &mut [u8], tally: &mut [u64]) -> u8
    ensures value { result ≡ file_number Srgb8 file.now (length out.old) (length tally.old) }
    ensures out_after { out.new ≡ file_shown Srgb8 file.now out.old (length tally.old) }
    ensures tally_after { tally.new ≡ file_tally Srgb8 file.now (length out.old) tally.old }
{
    if tally.len() != 3 {
        return file_refusal_or_5(file).into();
    }
    let answer = astc_file::decode_file_srgb8(file, out);
    image_numbers::put_tally(image_numbers::tally_told(answer), tally);
    reason::refusal_told(answer)
}
