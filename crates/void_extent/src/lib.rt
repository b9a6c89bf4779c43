// Void extents (01: solid blocks) of flat footprints and of volumes: where their extents lie, and which are bad.
#![tactic(auto)]

ghost use Rattle.std.specs.Prelude.{◌≡◌, [], ◌∷◌, ◌≤◌, ◌<◌, get_or, false};
ghost use Rattle.laws.specs.Choice.{pick, both, either};
ghost use Rattle.bits.specs.Block.{block_number};
ghost use Rattle.void_extent.specs.Layout.{extent_place, extent_width, extent_most, extent_at, bad_extents, bad_fixed, bad_void_extent, hdr_void_extent};

use bits::PhysicalBlock;

fn both(a: bool, b: bool) -> bool
    ensures { result ≡ both a b }
{
    if a { b } else { false }
}

fn either(a: bool, b: bool) -> bool
    ensures { result ≡ either a b }
{
    if a { true } else { b }
}

fn chosen(first: bool, a: bool, b: bool) -> bool
    ensures { result ≡ pick first a b }
{
    if first { a } else { b }
}

// Where extent i lies.
pub fn extent_place(volume: bool, i: u32) -> u32
    requires { i < 6 }
    ensures { result ≡ extent_place volume i }
{
    if volume {
        return 10 + 9 * i;
    }
    if i < 4 { 12 + 13 * i } else { 64 }
}

fn extent_width(volume: bool, i: u32) -> u32
    ensures { (result ≡ extent_width volume i) × (result ≤ 13) }
{
    if volume {
        return 9;
    }
    if i < 4 { 13 } else { 0 }
}

// Extent i of a void extent: low s, high s, low t, high t, low r, high r, of which a flat block has the first four.
pub fn extent(volume: bool, b: PhysicalBlock, i: u32) -> u64
    requires { i < 6 }
    ensures { result ≡ extent_at volume (block_number b) i }
{
    bits::field_at(b, extent_place(volume, i), extent_width(volume, i))
}

fn extent_most(volume: bool) -> u64
    ensures { result ≡ extent_most volume }
{
    if volume { 511 } else { 8191 }
}

pub fn bad_extents(volume: bool, s0: u64, s1: u64, t0: u64, t1: u64, r0: u64, r1: u64) -> bool
    ensures { result ≡ bad_extents volume (λ i. get_or (s0 ∷ s1 ∷ t0 ∷ t1 ∷ r0 ∷ r1 ∷ []) i 0) }
{
    let most = extent_most(volume);
    let four = both(
        t1 == most,
        both(t0 == most, both(s1 == most, both(s0 == most, true))),
    );
    let six = both(r1 == most, both(r0 == most, four));
    let ones = chosen(volume, six, four);
    let two = both(t0 < t1, both(s0 < s1, true));
    let three = both(r0 < r1, two);
    let rise = chosen(volume, three, two);
    !either(ones, rise)
}

// Whether bits 11..10 of a flat block are not both 1; a volume has no such bits.
fn bad_fixed(volume: bool, b: PhysicalBlock) -> bool
    ensures { result ≡ bad_fixed volume (block_number b) }
{
    if volume {
        return false;
    }
    bits::field_at(b, 10, 2) != 3
}

// What makes a void extent fault 12.
pub fn bad_void_extent(volume: bool, b: PhysicalBlock) -> bool
    ensures { result ≡ bad_void_extent volume (block_number b) }
{
    if bad_fixed(volume, b) {
        return true;
    }
    let s0 = extent(volume, b, 0);
    let s1 = extent(volume, b, 1);
    let t0 = extent(volume, b, 2);
    let t1 = extent(volume, b, 3);
    let r0 = extent(volume, b, 4);
    let r1 = extent(volume, b, 5);
    bad_extents(volume, s0, s1, t0, t1, r0, r1)
}

// Bit 9: the colours are HDR.
pub fn hdr_void_extent(b: PhysicalBlock) -> bool
    ensures { result ≡ hdr_void_extent (block_number b) }
{
    bits::field_at(b, 9, 1) == 1
}
