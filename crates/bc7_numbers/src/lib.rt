// BC7 sheets as lists of sixty numbers: mode, partition, rotation, index selection, 18 endpoints, 6 P bits, 16 primary and 16 secondary indices.
#![tactic(auto)]

ghost use Rattle.std.specs.Prelude.{◌≡◌, eqb, length};
ghost use Rattle.laws.specs.Choice.{pick};
ghost use Rattle.laws.specs.Table.{tab};
ghost use Rattle.bc7_codec.specs.Numbers.{sheet_number};
ghost use Rattle.bc7_numbers.specs.Calls.{read_number, read_numbers, write_number, write_block};

use bc7_block::Bc7Block;

fn put(s: Bc7Block, numbers: &mut [u8])
    requires { length numbers.old ≡ 60 }
    ensures { numbers.new ≡ tab (sheet_number s) 60 }
{
    for k in 0..60usize {
        numbers[k] = bc7_codec::number_in(s, k);
    }
}

// 4 unless so many bytes are a block, then 5.
fn or_5(bytes: usize) -> u8
    ensures { result ≡ pick (eqb bytes 16) 5 4 }
{
    if bytes == 16 { 5 } else { 4 }
}

// A block's sheet: 0, 4 or 71 with zeros, or 4, 5 with the list as it was where it is not of sixty numbers.
pub fn read_numbers(block: &[u8], numbers: &mut [u8]) -> u8
    ensures value { result ≡ read_number block.now (length numbers.old) }
    ensures numbers_after { numbers.new ≡ read_numbers block.now numbers.old }
{
    if numbers.len() != 60 {
        return or_5(block.len());
    }
    let reading = bc7_calls::read_bc7(block);
    let answer = reading.answer;
    put(reading.block, numbers);
    block_answer::number_told(answer)
}

// The block of a sheet: 0, 72 or 73 with zeros, or 4, 5 with the block as it was where a length is wrong.
pub fn write_numbers(numbers: &[u8], block: &mut [u8]) -> u8
    ensures value { result ≡ write_number numbers.now (length block.old) }
    ensures block_after { block.new ≡ write_block numbers.now block.old }
{
    if block.len() != 16 {
        return 4;
    }
    if numbers.len() != 60 {
        return 5;
    }
    let mut f = [0u8; 60];
    f.copy_from_slice(numbers);
    let s = bc7_codec::sheet_of(f[0], f);
    let writing = bc7_calls::write_bc7(s);
    let answer = writing.answer;
    let bytes = writing.bytes;
    byte_list::put_block(bytes, block);
    block_answer::number_told(answer)
}
