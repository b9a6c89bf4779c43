// One block to texels: a call for each kind, in the ordinary reading and in the strict one.
#![tactic(auto)]

ghost use Rattle.std.specs.Prelude.{◌≡◌, ◌/◌, ◌≤◌, length, get_or};
ghost use Rattle.laws.specs.Table.{tab};
ghost use Rattle.interpolation.specs.declared.Kind.TheVariants.{Unorm16, Srgb8, Float16};
ghost use Rattle.block_answer.specs.Told.{block_refusal, number_told};
ghost use Rattle.one_block.specs.Calls.{block_answer, block_told, block_out, block_answer_in, block_told_in, block_out_in, Words};
ghost use Rattle.block_reading.specs.declared.Reading.TheVariants.{Strict};

use block_answer::Answer;
use block_reading::Reading;
use interpolation::Kind;

// The first numbers of the buffer, as they stand.
fn copy_words(from: &[u16; 864], out: &mut [u16])
    requires { length out.old ≤ 864 }
    ensures { out.new ≡ tab (λ k. get_or from.now k 0) (length out.old) }
{
    let mut k: usize = 0;
    while k < out.len() {
        out[k] = from[k];
        k += 1;
    }
}

// The first numbers of the buffer, their top bytes.
fn copy_bytes(from: &[u16; 864], out: &mut [u8])
    requires { length out.old ≤ 864 }
    ensures { out.new ≡ tab (λ k. get_or from.now k 0 / 256) (length out.old) }
{
    let mut i: usize = 0;
    while i < out.len() {
        out[i] = interpolation::top_byte(from[i]);
        i += 1;
    }
}

// The block in a kind of 16-bit numbers, once the refusal n is known.
fn show_words(reading: Reading, n: u8, fp: u8, kind: Kind, block: &[u8], out: &mut [u16]) -> Answer
    requires n_value { n ≡ block_refusal fp (length block.now) (length out.old) }
    requires words { Words kind }
    ensures value { result ≡ block_answer_in reading kind fp block.now (length out.old) }
    ensures out_after { out.new ≡ block_out_in reading kind fp block.now out.old }
    ensures result_value { number_told result ≡ block_told_in reading kind fp block.now (length out.old) }
{
    if n != 0 {
        return Answer::Refused(n);
    }
    let mut buffer = [0u16; 864];
    let b = bits::load(block);
    let fault = strict_block::decode_in(
        reading,
        b,
        fp,
        footprint::is_volume(fp),
        kind,
        &mut buffer,
    );
    copy_words(&buffer, out);
    block_answer::answer_for(fault)
}

// The texels of a block in kind 0: four numbers of 16 bits each.
pub fn decode_unorm16(fp: u8, block: &[u8], out: &mut [u16]) -> Answer
    ensures value { result ≡ block_answer Unorm16 fp block.now (length out.old) }
    ensures out_after { out.new ≡ block_out Unorm16 fp block.now out.old }
    ensures result_value { number_told result ≡ block_told Unorm16 fp block.now (length out.old) }
{
    let n = block_answer::refusal(fp, block.len(), out.len());
    show_words(Reading::Ordinary, n, fp, Kind::Unorm16, block, out)
}

// The texels of a block in kind 2: four half floats each, as their 16-bit patterns.
pub fn decode_float16(fp: u8, block: &[u8], out: &mut [u16]) -> Answer
    ensures value { result ≡ block_answer Float16 fp block.now (length out.old) }
    ensures out_after { out.new ≡ block_out Float16 fp block.now out.old }
    ensures result_value { number_told result ≡ block_told Float16 fp block.now (length out.old) }
{
    let n = block_answer::refusal(fp, block.len(), out.len());
    show_words(Reading::Ordinary, n, fp, Kind::Float16, block, out)
}

// The block in kind 1, once the refusal n is known.
fn show_bytes(reading: Reading, n: u8, fp: u8, block: &[u8], out: &mut [u8]) -> Answer
    requires { n ≡ block_refusal fp (length block.now) (length out.old) }
    ensures value { result ≡ block_answer_in reading Srgb8 fp block.now (length out.old) }
    ensures out_after { out.new ≡ block_out_in reading Srgb8 fp block.now out.old }
    ensures result_value { number_told result ≡ block_told_in reading Srgb8 fp block.now (length out.old) }
{
    if n != 0 {
        return Answer::Refused(n);
    }
    let mut buffer = [0u16; 864];
    let b = bits::load(block);
    let fault = strict_block::decode_in(
        reading,
        b,
        fp,
        footprint::is_volume(fp),
        Kind::Srgb8,
        &mut buffer,
    );
    copy_bytes(&buffer, out);
    block_answer::answer_for(fault)
}

// The texels of a block in kind 1: four bytes each.
pub fn decode_srgb8(fp: u8, block: &[u8], out: &mut [u8]) -> Answer
    ensures value { result ≡ block_answer Srgb8 fp block.now (length out.old) }
    ensures out_after { out.new ≡ block_out Srgb8 fp block.now out.old }
    ensures result_value { number_told result ≡ block_told Srgb8 fp block.now (length out.old) }
{
    let n = block_answer::refusal(fp, block.len(), out.len());
    show_bytes(Reading::Ordinary, n, fp, block, out)
}

// ---- the strict reading

// In kind 0.
pub fn decode_unorm16_strict(fp: u8, block: &[u8], out: &mut [u16]) -> Answer
    ensures value { result ≡ block_answer_in Strict Unorm16 fp block.now (length out.old) }
    ensures out_after { out.new ≡ block_out_in Strict Unorm16 fp block.now out.old }
    ensures result_value { number_told result ≡ block_told_in Strict Unorm16 fp block.now (length out.old) }
{
    let n = block_answer::refusal(fp, block.len(), out.len());
    show_words(Reading::Strict, n, fp, Kind::Unorm16, block, out)
}

// In kind 2.
pub fn decode_float16_strict(fp: u8, block: &[u8], out: &mut [u16]) -> Answer
    ensures value { result ≡ block_answer_in Strict Float16 fp block.now (length out.old) }
    ensures out_after { out.new ≡ block_out_in Strict Float16 fp block.now out.old }
    ensures result_value { number_told result ≡ block_told_in Strict Float16 fp block.now (length out.old) }
{
    let n = block_answer::refusal(fp, block.len(), out.len());
    show_words(Reading::Strict, n, fp, Kind::Float16, block, out)
}

// In kind 1.
pub fn decode_srgb8_strict(fp: u8, block: &[u8], out: &mut [u8]) -> Answer
    ensures value { result ≡ block_answer_in Strict Srgb8 fp block.now (length out.old) }
    ensures out_after { out.new ≡ block_out_in Strict Srgb8 fp block.now out.old }
    ensures result_value { number_told result ≡ block_told_in Strict Srgb8 fp block.now (length out.old) }
{
    let n = block_answer::refusal(fp, block.len(), out.len());
    show_bytes(Reading::Strict, n, fp, block, out)
}
