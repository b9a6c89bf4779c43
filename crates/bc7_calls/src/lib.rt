// The one-block call, and the reader and the writer of BC7 sheets.
#![tactic(auto)]

ghost use Rattle.std.specs.Prelude.{◌≡◌, length};
ghost use Rattle.bits.specs.Block.{block_number};
ghost use Rattle.reason.specs.Numbers.{refusal_told};
ghost use Rattle.block_answer.specs.Told.{number_told};
ghost use Rattle.bc7_block.specs.Refusals.{refusal_of};
ghost use Rattle.bc7_block.specs.Reading.{zero_block};
ghost use Rattle.bc7_calls.specs.Calls.{decode_refusal, decode_answer, decode_told, decode_out, nothing, reading_in, reading_of, read_told, refused_with, writing_of};

use bc7_block::Bc7Block;
use bits::PhysicalBlock;
use block_answer::Answer;
use reason::Refusal;

// What the reader of sheets answers, with the sheet.
#[derive(Clone, Copy)]
pub struct Bc7Reading {
    pub answer: Answer,
    pub block: Bc7Block,
}

// What the writer answers, with the block.
#[derive(Clone, Copy)]
pub struct Bc7Writing {
    pub answer: Answer,
    pub bytes: [u8; 16],
}

// ---- the one-block call

// Refuses other than 16 bytes, then other than 64 places.
fn check(bytes: usize, places: usize) -> Result<(), Refusal>
    ensures { refusal_told result ≡ decode_refusal bytes places }
{
    if bytes != 16 {
        return Err(Refusal::Bytes);
    }
    if places != 64 {
        return Err(Refusal::Places);
    }
    Ok(())
}

// The texels of a block: sixteen, rows first, each of four bytes R, G, B, A.
pub fn decode_bc7(block: &[u8], out: &mut [u8]) -> Answer
    ensures value { result ≡ decode_answer block.now (length out.old) }
    ensures out_after { out.new ≡ decode_out block.now out.old }
    ensures result_value { number_told result ≡ decode_told block.now (length out.old) }
{
    match check(block.len(), out.len()) {
        Err(refusal) => Answer::Refused(refusal.into()),
        Ok(()) => {
            let mut texels = [0u8; 64];
            let fault = bc7_core::decode_into(bits::load(block), &mut texels);
            out.copy_from_slice(&texels);
            block_answer::answer_for(fault)
        }
    }
}

// ---- sheets

fn zero_block() -> Bc7Block
    ensures { result ≡ zero_block }
{
    Bc7Block {
        mode: 0,
        partition: 0,
        rotation: 0,
        selection: 0,
        endpoints: [0u8; 18],
        pbits: [0u8; 6],
        primary: [0u8; 16],
        secondary: [0u8; 16],
    }
}

// A refusal or a fault, with a sheet of zeros.
fn told(answer: Answer) -> Bc7Reading
    ensures { result ≡ nothing answer }
{
    let block = zero_block();
    Bc7Reading { answer, block }
}

fn read_number(b: PhysicalBlock) -> Bc7Reading
    ensures { result ≡ reading_in (block_number b) }
{
    let m = bc7_layout::mode_at(b);
    if m == 8 {
        return told(Answer::Faulty(71));
    }
    let f = bc7_codec::read_fields(b, m);
    let block = bc7_codec::sheet_of(m, f);
    Bc7Reading {
        answer: Answer::Done,
        block,
    }
}

// A block's sheet.
pub fn read_bc7(block: &[u8]) -> Bc7Reading
    ensures value { result ≡ reading_of block.now }
    ensures answer_value { number_told result.answer ≡ read_told block.now }
{
    if block.len() != 16 {
        return told(Answer::Refused(4));
    }
    read_number(bits::load(block))
}

fn refused(n: u8) -> Bc7Writing
    ensures { result ≡ refused_with n }
{
    Bc7Writing {
        answer: Answer::Refused(n),
        bytes: [0u8; 16],
    }
}

// A sheet's block.
pub fn write_bc7(s: Bc7Block) -> Bc7Writing
    ensures value { result ≡ writing_of s }
    ensures answer_value { number_told result.answer ≡ refusal_of s }
{
    match bc7_codec::check(s) {
        Err(refusal) => refused(refusal.into()),
        Ok(()) => Bc7Writing {
            answer: Answer::Done,
            bytes: bits::store(bc7_codec::block_of(s)),
        },
    }
}
