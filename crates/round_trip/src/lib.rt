// A symbolic block (01: sheet) written, read back and shown: demand 3 of what the calls return.
#![tactic(auto)]

ghost use Rattle.std.specs.Prelude.{◌≡◌, length};
ghost use Rattle.interpolation.specs.declared.Kind.TheVariants.{Srgb8};
ghost use Rattle.one_block.specs.Calls.{block_answer, block_out};
ghost use Rattle.round_trip.specs.Demand.{word_kind, round_trip_of, Demanded, rewriting_of, Sound, Rewritten};

use block_answer::Answer;
use symbolic_block::SymbolicBlock;
use symbolic_calls::Writing;
use symbolic_reader::SymbolicReading;

// What the writer, the reader and the one-block call answered.
#[derive(Clone, Copy)]
pub struct RoundTrip {
    pub writing: Writing,
    pub reading: SymbolicReading,
    pub shown: Answer,
}

// A block in kind 2 or kind 0.
fn show_words(half: bool, fp: u8, block: &[u8], out: &mut [u16]) -> Answer
    ensures value { result ≡ block_answer (word_kind half) fp block.now (length out.old) }
    ensures out_after { out.new ≡ block_out (word_kind half) fp block.now out.old }
{
    if half {
        return one_block::decode_float16(fp, block, out);
    }
    one_block::decode_unorm16(fp, block, out)
}

// In kind 2 or kind 0: four half floats or numbers of 16 bits for each texel.
pub fn round_trip_words(half: bool, fp: u8, s: SymbolicBlock, out: &mut [u16]) -> RoundTrip
    ensures value { result ≡ round_trip_of (word_kind half) fp s (length out.old) }
    ensures out_after { out.new ≡ block_out (word_kind half) fp result.writing.bytes out.old }
    ensures demanded { Demanded (word_kind half) fp s out.old result out.new }
{
    let writing = symbolic_calls::write_symbolic(fp, s);
    let bytes = writing.bytes;
    let reading = symbolic_reader::read_symbolic(fp, &bytes);
    let shown = show_words(half, fp, &bytes, out);
    RoundTrip {
        writing,
        reading,
        shown,
    }
}

// In kind 1: four bytes for each texel.
pub fn round_trip_srgb8(fp: u8, s: SymbolicBlock, out: &mut [u8]) -> RoundTrip
    ensures value { result ≡ round_trip_of Srgb8 fp s (length out.old) }
    ensures out_after { out.new ≡ block_out Srgb8 fp result.writing.bytes out.old }
    ensures demanded { Demanded Srgb8 fp s out.old result out.new }
{
    let writing = symbolic_calls::write_symbolic(fp, s);
    let bytes = writing.bytes;
    let reading = symbolic_reader::read_symbolic(fp, &bytes);
    let shown = one_block::decode_srgb8(fp, &bytes, out);
    RoundTrip {
        writing,
        reading,
        shown,
    }
}

// What the reader, the writer and the one-block calls of both blocks answered.
#[derive(Clone, Copy)]
pub struct Rewriting {
    pub reading: SymbolicReading,
    pub writing: Writing,
    pub shown: Answer,
    pub again: Answer,
}

// A block read, written anew and both shown, in kind 2 or kind 0.
pub fn rewrite_words(
    half: bool,
    fp: u8,
    block: &[u8],
    out: &mut [u16],
    again: &mut [u16],
) -> Rewriting
    ensures value { result ≡ rewriting_of (word_kind half) fp block.now (length out.old) (length again.old) }
    ensures out_after { out.new ≡ block_out (word_kind half) fp block.now out.old }
    ensures again_after { again.new ≡ block_out (word_kind half) fp result.writing.bytes again.old }
    ensures rewritten { Sound fp block.now → Rewritten (word_kind half) fp block.now out.old again.old result out.new again.new }
{
    let reading = symbolic_reader::read_symbolic(fp, block);
    let writing = symbolic_calls::write_symbolic(fp, reading.block);
    let bytes = writing.bytes;
    let shown = show_words(half, fp, block, out);
    let shown_again = show_words(half, fp, &bytes, again);
    Rewriting {
        reading,
        writing,
        shown,
        again: shown_again,
    }
}

// A block read, written anew and both shown, in kind 1.
pub fn rewrite_srgb8(fp: u8, block: &[u8], out: &mut [u8], again: &mut [u8]) -> Rewriting
    ensures value { result ≡ rewriting_of Srgb8 fp block.now (length out.old) (length again.old) }
    ensures out_after { out.new ≡ block_out Srgb8 fp block.now out.old }
    ensures again_after { again.new ≡ block_out Srgb8 fp result.writing.bytes again.old }
    ensures rewritten { Sound fp block.now → Rewritten Srgb8 fp block.now out.old again.old result out.new again.new }
{
    let reading = symbolic_reader::read_symbolic(fp, block);
    let writing = symbolic_calls::write_symbolic(fp, reading.block);
    let bytes = writing.bytes;
    let shown = one_block::decode_srgb8(fp, block, out);
    let shown_again = one_block::decode_srgb8(fp, &bytes, again);
    Rewriting {
        reading,
        writing,
        shown,
        again: shown_again,
    }
}
