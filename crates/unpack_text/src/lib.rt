// The text that the program `unpack` writes, into a lent buffer.
#![tactic(auto)]

ghost use Rattle.std.specs.Prelude.{◌≡◌, ◌≤◌, ◌<◌, eqb, length, get_or};
ghost use Rattle.laws.specs.Choice.{pick};
ghost use Rattle.bits.specs.Block.{number_of};
ghost use Rattle.footprint.specs.Footprint.{width_of, texels_of};
ghost use Rattle.interpolation.specs.Expansion.{shown_of};
ghost use Rattle.line_text.specs.Lines.{texel_line, lines_of, text_over};
ghost use Rattle.line_text.specs.inner.Written.{Puts};
ghost use Rattle.reason.specs.Numbers.{refusal_told};
ghost use Rattle.unpack_text.specs.Text.{block_text, program_refusal, program_text};

use interpolation::Kind;
use reason::Refusal;

// Refuses another length than 18, then a footprint above 13, then a kind above 2.
pub fn check(bytes: usize, fp: u8, kind: u8) -> Result<(), Refusal>
    ensures { refusal_told result ≡ program_refusal bytes fp kind }
{
    if bytes != 18 {
        return Err(Refusal::Bytes);
    }
    if 13 < fp {
        return Err(Refusal::Footprint);
    }
    if 2 < kind {
        return Err(Refusal::Kind);
    }
    Ok(())
}

// The texels' lines, behind a text that ends at `from`.
fn put_texels(out: &mut [u8], from: usize, fp: u8, kind: Kind, numbers: &[u16; 864]) -> usize
    requires fp_bound { fp < 14 }
    requires from_bound { (from ≤ 12) × (length out.old ≡ 5200) }
    ensures { Puts out.old from (lines_of (texel_line (width_of fp) (λ i. shown_of kind (get_or numbers.now i 0))) (texels_of fp)) out.new result }
{
    let width = footprint::width(fp);
    let count = footprint::texels(fp) as usize;
    let mut at = from;
    for k in 0..count {
        at = line_text::put_texel(out, at, width, k, kind, numbers);
    }
    at
}

// The text of a flat block.
fn put_block(out: &mut [u8], fp: u8, kind: Kind, block: &[u8]) -> usize
    requires fp_bound { fp < 14 }
    requires out_len { (length out.old ≡ 5200) × (length block.now ≡ 16) }
    ensures { Puts out.old 0 (block_text fp kind (number_of block.now)) out.new result }
{
    let mut numbers = [0u16; 864];
    let fault = block_core::decode_into(bits::load(block), fp, false, kind, &mut numbers);
    let end = line_text::put_told(out, b"fault", fault);
    put_texels(out, end, fp, kind, &numbers)
}

// The program's text for the bytes that it was given, in front of what a buffer of 5,200 bytes held; answers its length. A buffer of another
// length is left as it was, and 0 is answered: no text is empty.
pub fn program_text(input: &[u8], out: &mut [u8]) -> usize
    ensures value { result ≡ pick (eqb (length out.old) 5200) (length (program_text input.now)) 0 }
    ensures out_after { out.new ≡ pick (eqb (length out.old) 5200) (text_over (program_text input.now) out.old) out.old }
    ensures upper_bound { result ≤ length out.new }
{
    if out.len() != 5200 {
        return 0;
    }
    if input.len() != 18 {
        return line_text::put_told(out, b"refused", 4);
    }
    let fp = input[0];
    let kind = input[1];
    match check(18, fp, kind) {
        Err(refusal) => line_text::put_told(out, b"refused", refusal.into()),
        Ok(()) => put_block(out, fp, kind_number::kind_of(kind), &input[2..18]),
    }
}
