// The calls exported to C for symbolic blocks (01: sheets) as lists of 107 numbers: the fields in the order of 01, "Fields", then the HDR
// mark (02, i), the grid's depth and the third pair of extents (02, h).
#![tactic(auto)]

ghost use Rattle.std.specs.Prelude.{◌≡◌, length};
ghost use Rattle.symbolic_numbers.specs.Calls.{read_number, read_numbers, read_spare, write_number, write_block};

// A block's symbolic block and its spare bits: the fault's number or the refusal's with zeros in `numbers` and `spare`, 5 with both as they
// were, or 0.
#[unsafe(no_mangle)]
pub extern "C" fn stallbrook_astc_read_symbolic(
    footprint: u8,
    block: &[u8],
    numbers: &mut [u16],
    spare: &mut [u16],
) -> u8
    ensures value { result ≡ read_number footprint block.now (length numbers.old) (length spare.old) }
    ensures numbers_after { numbers.new ≡ read_numbers footprint block.now numbers.old (length spare.old) }
    ensures spare_after { spare.new ≡ read_spare footprint block.now (length numbers.old) spare.old }
{
    symbolic_numbers::read_numbers(footprint, block, numbers, spare)
}

// The block of a symbolic block: 0, or the refusal with zeros in `block`, also 5 where `numbers` is not of 107; 1 or else 4 with `block` as it was
// where it is not of sixteen bytes.
#[unsafe(no_mangle)]
pub extern "C" fn stallbrook_astc_write_symbolic(
    footprint: u8,
    numbers: &[u16],
    block: &mut [u8],
) -> u8
    ensures value { result ≡ write_number footprint numbers.now (length block.old) }
    ensures block_after { block.new ≡ write_block footprint numbers.now block.old }
{
    symbolic_numbers::write_numbers(footprint, numbers, block)
}
