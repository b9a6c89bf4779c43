// The canonical form of a block, its strict fault, and a block decoded in either reading.
#![tactic(auto)]

ghost use Rattle.std.specs.Prelude.{◌≡◌, true, ◌≤◌, eqb, length};
ghost use Rattle.bits.specs.Block.{block_number};
ghost use Rattle.footprint.specs.Footprint.{is_volume};
ghost use Rattle.interpolation.specs.Expansion.{takes_hdr};
ghost use Rattle.block_fault.specs.Faults.{fault_of};
ghost use Rattle.block_fault.specs.declared.Contents.TheVariants.{Coded};
ghost use Rattle.block_reading.specs.Faults.{canonical_of, strict_fault, fault_in};
ghost use Rattle.block_reading.specs.Shown.{into_in};
ghost use Rattle.block_reading.specs.Canonical.{canonical_in};
ghost use Rattle.block_reading.specs.declared.Reading.TheVariants.{Strict};
ghost use Rattle.block_core.specs.inner.Shows.{Shows};
ghost use Rattle.strict_block.specs.inner.Read.{Read};

use bits::PhysicalBlock;
use block_core::{Decoded, UniformBlock};
use block_fault::{Contents, Settings};
use block_reading::Reading;
use interpolation::Kind;

// Whether two blocks are the same 128 bits.
pub fn same(a: PhysicalBlock, b: PhysicalBlock) -> bool
    ensures { result ≡ eqb (block_number a) (block_number b) }
{
    if a.lo != b.lo {
        return false;
    }
    a.hi == b.hi
}

// What the writer makes from the sheet of a coded block without fault.
fn written_coded(fp: u8, b: PhysicalBlock, s: Settings) -> PhysicalBlock
    requires { Read fp (block_number b) (Coded s) }
    ensures { block_number result ≡ canonical_of fp (block_number b) }
{
    symbolic_writer::block_of(
        fp,
        symbolic_reader::mode_block(b, s.header, s.numbers, s.range),
    )
}

// The same of any block without fault. All bits of a void extent are fields.
fn written(fp: u8, b: PhysicalBlock, contents: Contents) -> PhysicalBlock
    requires { Read fp (block_number b) contents }
    ensures { block_number result ≡ canonical_of fp (block_number b) }
{
    match contents {
        Contents::VoidExtent => b,
        Contents::Coded(s) => written_coded(fp, b, s),
    }
}

// The canonical form of a block, and its fault by kind 2's list.
#[derive(Clone, Copy)]
pub struct CanonicalBlock {
    pub fault: u8,
    pub block: PhysicalBlock,
}

pub fn canonical(fp: u8, volume: bool, b: PhysicalBlock) -> CanonicalBlock
    requires { (fp ≤ 23) × (volume ≡ is_volume fp) }
    ensures fault_value { result.fault ≡ fault_of true fp (block_number b) }
    ensures block_value { block_number result.block ≡ canonical_in fp (block_number b) }
{
    match block_fault::read_settings(true, volume, b, fp) {
        Err(fault) => CanonicalBlock {
            fault: fault.into(),
            block: b,
        },
        Ok(Contents::VoidExtent) => CanonicalBlock { fault: 0, block: b },
        Ok(Contents::Coded(s)) => CanonicalBlock {
            fault: 0,
            block: written_coded(fp, b, s),
        },
    }
}

// The fault of the strict reading, HDR taken or not: the settings are read once.
pub fn strict_fault(hdr: bool, fp: u8, volume: bool, b: PhysicalBlock) -> u8
    requires { (fp ≤ 23) × (volume ≡ is_volume fp) }
    ensures { result ≡ strict_fault hdr fp (block_number b) }
{
    match block_fault::read_settings(hdr, volume, b, fp) {
        Err(fault) => fault.into(),
        Ok(contents) => {
            if same(b, written(fp, b, contents)) {
                0
            } else {
                21
            }
        }
    }
}

// A block in the strict reading: fault 21 shows the error colour.
fn decode_strict(
    b: PhysicalBlock,
    fp: u8,
    volume: bool,
    kind: Kind,
    out: &mut [u16; 864],
) -> Decoded
    requires { (fp ≤ 23) × (volume ≡ is_volume fp) }
    ensures { Shows (strict_fault (takes_hdr kind) fp (block_number b)) (into_in Strict fp kind (block_number b)) fp result out.old out.new }
{
    let fault = strict_fault(interpolation::takes_hdr(kind), fp, volume, b);
    if fault == 21 {
        let texel = block_core::error_texel(kind);
        return Decoded::Uniform(UniformBlock { texel, fault });
    }
    block_core::decode_some(b, fp, volume, kind, out)
}

// What `block_core::decode_some` does, in a reading; whether the footprint is a volume is said beside it.
pub fn decode_some_in(
    reading: Reading,
    b: PhysicalBlock,
    fp: u8,
    volume: bool,
    kind: Kind,
    out: &mut [u16; 864],
) -> Decoded
    requires { (fp ≤ 23) × (volume ≡ is_volume fp) }
    ensures { Shows (fault_in reading (takes_hdr kind) fp (block_number b)) (into_in reading fp kind (block_number b)) fp result out.old out.new }
{
    match reading {
        Reading::Ordinary => block_core::decode_some(b, fp, volume, kind, out),
        Reading::Strict => decode_strict(b, fp, volume, kind, out),
    }
}

// What `block_core::decode_into` does, in a reading.
pub fn decode_in(
    reading: Reading,
    b: PhysicalBlock,
    fp: u8,
    volume: bool,
    kind: Kind,
    out: &mut [u16; 864],
) -> u8
    requires { (fp ≤ 23) × (volume ≡ is_volume fp) }
    ensures value { result ≡ fault_in reading (takes_hdr kind) fp (block_number b) }
    ensures out_after { length out.old ≡ 864 → out.new ≡ into_in reading fp kind (block_number b) out.old }
{
    let d = decode_some_in(reading, b, fp, volume, kind, out);
    block_core::buffered(d, fp, out)
}
