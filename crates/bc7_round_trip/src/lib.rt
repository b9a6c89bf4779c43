// A BC7 sheet written, read back and shown, and a block read and written anew: demand 3 of what the calls return.
#![tactic(auto)]

ghost use Rattle.std.specs.Prelude.{◌≡◌, length};
ghost use Rattle.bc7_calls.specs.Calls.{decode_out};
ghost use Rattle.bc7_round_trip.specs.Demand.{round_trip_of, Demanded, rewriting_of, Sound, Rewritten};

use bc7_block::Bc7Block;
use bc7_calls::{Bc7Reading, Bc7Writing};
use block_answer::Answer;

// What the writer, the reader and the one-block call answered.
#[derive(Clone, Copy)]
pub struct RoundTrip {
    pub writing: Bc7Writing,
    pub reading: Bc7Reading,
    pub shown: Answer,
}

pub fn round_trip(s: Bc7Block, out: &mut [u8]) -> RoundTrip
    ensures value { result ≡ round_trip_of s (length out.old) }
    ensures out_after { out.new ≡ decode_out result.writing.bytes out.old }
    ensures demanded { Demanded s out.old result out.new }
{
    let writing = bc7_calls::write_bc7(s);
    let bytes = writing.bytes;
    let reading = bc7_calls::read_bc7(&bytes);
    let shown = bc7_calls::decode_bc7(&bytes, out);
    RoundTrip {
        writing,
        reading,
        shown,
    }
}

// What the reader and the writer answered.
#[derive(Clone, Copy)]
pub struct Rewriting {
    pub reading: Bc7Reading,
    pub writing: Bc7Writing,
}

pub fn rewrite(block: &[u8]) -> Rewriting
    ensures value { result ≡ rewriting_of block.now }
    ensures rewritten { Sound block.now → Rewritten block.now result }
{
    let reading = bc7_calls::read_bc7(block);
    let writing = bc7_calls::write_bc7(reading.block);
    Rewriting { reading, writing }
}
