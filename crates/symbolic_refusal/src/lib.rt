// The first refusal of a symbolic block (01: sheet). 01, "Refusals of a sheet, in order".
#![tactic(auto)]

ghost use Rattle.std.specs.Prelude.{◌≡◌, [], get_or};
ghost use Rattle.laws.specs.Choice.{pick};
ghost use Rattle.reason.specs.Numbers.{refusal_told};
ghost use Rattle.block_header.specs.Reasons.{grid_reasons};
ghost use Rattle.laws.specs.Reasons.{first_of};
ghost use Rattle.footprint.specs.Footprint.{is_volume};
ghost use Rattle.void_extent.specs.Layout.{bad_extents};
ghost use Rattle.symbolic_block.specs.Fields.{sheet_grid, header_of, stored_in};
ghost use Rattle.symbolic_block.specs.Refusals.{unknown_footprint, outside, within, no_block_mode, misfit, modes_misfit, bad_grid_depth, bad_extent_fields, bad_component, bad_index, bad_selector, bad_endpoints, bad_weights, marked_without, mode_refusals, void_refusals, refusal_of};
ghost use Rattle.symbolic_refusal.specs.inner.Stages.{bad_grid, bad_partitioning, bad_lists, bad_fields, bad_shown, grid_in_use, partitioning_in_use, numbers_in_use, bad_void_fields, field_reasons, number_reasons};

use block_header::BlockHeader;
use block_mode::WeightGrid;
use encoding::Stored;
use reason::{Fault, Refusal};
use symbolic_block::SymbolicBlock;

fn wide(x: u8) -> u16
    ensures { result ≡ x }
{
    x as u16
}

fn long(x: u16) -> u64
    ensures { result ≡ x }
{
    x as u64
}

// 1
fn unknown_footprint(fp: u8) -> bool
    ensures { result ≡ unknown_footprint fp }
{
    23 < fp
}

fn outside(low: u8, high: u8, x: u8) -> bool
    ensures { result ≡ outside low high x }
{
    (x < low) | (high < x)
}

// What a field may be at most by a test.
fn most_by(test: bool, yes: u16, no: u16) -> u16
    ensures { result ≡ pick test yes no }
{
    if test { yes } else { no }
}

// ---- lists: the first n numbers are at most `most`, the others 0

fn within<const N: usize>(xs: &[u16; N], n: usize, most: u16) -> bool
    ensures { result ≡ within N n most (λ k. get_or xs.now k 0) }
{
    let mut ok = true;
    for i in 0..N {
        ok = (xs[i] <= most_by(i < n, most, 0)) & ok;
    }
    ok
}

fn modes_within(modes: [u8; 4], n: usize, most: u16) -> bool
    ensures { result ≡ within 4 n most (λ k. get_or modes k 0) }
{
    let m0 = wide(modes[0]);
    let m1 = wide(modes[1]);
    let m2 = wide(modes[2]);
    let m3 = wide(modes[3]);
    within(&[m0, m1, m2, m3], n, most)
}

fn stored_within<const N: usize>(xs: &[Stored; N], n: usize, most: u16) -> bool
    ensures { result ≡ within N n most (stored_in xs.now) }
{
    let mut ok = true;
    for i in 0..N {
        ok = (wide(xs[i].0) <= most_by(i < n, most, 0)) & ok;
    }
    ok
}

// ---- 31 of a mode sheet

fn bad_depth(fp: u8, s: SymbolicBlock) -> bool
    ensures { result ≡ bad_grid_depth fp s }
{
    if footprint::is_volume(fp) {
        return outside(2, 6, s.depth);
    }
    outside(1, 1, s.depth)
}

fn bad_grid(fp: u8, s: SymbolicBlock) -> bool
    ensures { result ≡ bad_grid fp s }
{
    let width = outside(2, 12, s.width);
    let height = outside(2, 12, s.height);
    let depth = bad_depth(fp, s);
    let planes = outside(1, 2, s.planes);
    width | (height | (depth | ((11 < s.range) | planes)))
}

fn bad_component(s: SymbolicBlock) -> bool
    ensures { result ≡ bad_component s }
{
    most_by(s.planes == 2, 3, 0) < wide(s.component)
}

fn bad_index(s: SymbolicBlock) -> bool
    ensures { result ≡ bad_index s }
{
    most_by(s.partitions == 1, 0, 1023) < s.index
}

fn bad_selector(s: SymbolicBlock) -> bool
    ensures { result ≡ bad_selector s }
{
    most_by(s.partitions == 1, 0, 3) < wide(s.selector)
}

fn bad_partitioning(s: SymbolicBlock) -> bool
    ensures { result ≡ bad_partitioning s }
{
    let partitions = outside(1, 4, s.partitions);
    let index = bad_index(s);
    let selector = bad_selector(s);
    bad_component(s) | (partitions | (index | selector))
}

fn bad_lists(s: SymbolicBlock) -> bool
    ensures { result ≡ bad_lists s }
{
    let m = s.modes;
    let c = s.colours;
    let e = s.extents;
    let modes = modes_within(m, s.partitions as usize, 15);
    let colours = within(&c, 0, 0);
    let extents = within(&e, 0, 0);
    !modes | (!colours | !extents)
}

fn bad_fields(fp: u8, s: SymbolicBlock) -> bool
    ensures { result ≡ bad_fields fp s }
{
    let grid = bad_grid(fp, s);
    let partitioning = bad_partitioning(s);
    let lists = bad_lists(s);
    (1 < s.mark) | ((1 < s.hdr) | (grid | (partitioning | lists)))
}

// ---- the settings

fn grid_of(s: SymbolicBlock) -> WeightGrid
    ensures { result ≡ sheet_grid s }
{
    WeightGrid {
        width: s.width,
        height: s.height,
        depth: s.depth,
        range: s.range,
        planes: s.planes,
    }
}

fn header_of(s: SymbolicBlock) -> BlockHeader
    ensures { result ≡ header_of s }
{
    let grid = grid_of(s);
    let modes = s.modes;
    BlockHeader {
        grid,
        component: s.component,
        partitions: s.partitions,
        index: s.index,
        selector: s.selector,
        modes,
    }
}

// 32
fn no_block_mode(g: WeightGrid) -> bool
    ensures { result ≡ no_block_mode g }
{
    volume_mode::block_mode_of(g).is_none()
}

// 1, 31 and 32
fn field_refusal(fp: u8, s: SymbolicBlock) -> Result<(), Refusal>
    ensures { refusal_told result ≡ first_of (field_reasons fp s) }
{
    if unknown_footprint(fp) {
        return Err(Refusal::Footprint);
    }
    if bad_fields(fp, s) {
        return Err(Refusal::Field);
    }
    if no_block_mode(grid_of(s)) {
        return Err(Refusal::BlockMode);
    }
    Ok(())
}

// 14 to 17
fn grid_refusal(fp: u8, h: BlockHeader) -> Result<(), Refusal>
    ensures { refusal_told result ≡ first_of (grid_reasons fp h []) }
{
    block_header::grid_fault(fp, h.grid)?;
    if (h.grid.planes == 2) & (h.partitions == 4) {
        return Err(Refusal::Faulty(Fault::FourWithTwoPlanes));
    }
    Ok(())
}

// ---- 33

// The mode of partition p, 0 past the fourth.
fn mode_at(modes: [u8; 4], p: usize) -> u8
    ensures { result ≡ get_or modes p 0 }
{
    if p < 4 { modes[p] } else { 0 }
}

fn misfit(selector: u8, start: u8, mode: u8) -> bool
    ensures { result ≡ misfit selector start mode }
{
    if selector == 0 {
        return mode != start;
    }
    let class = mode / 4;
    !((class == selector - 1) | (class == selector))
}

fn modes_misfit(h: BlockHeader) -> bool
    ensures { result ≡ modes_misfit h }
{
    let modes = h.modes;
    let count = h.partitions as usize;
    let mut bad = false;
    for p in 0..count {
        bad = misfit(h.selector, mode_at(modes, 0), mode_at(modes, p)) | bad;
    }
    (1 < h.partitions) & bad
}

// ---- 34

fn bad_endpoints(s: SymbolicBlock) -> bool
    ensures { result ≡ bad_endpoints s }
{
    let h = header_of(s);
    let count = block_header::endpoint_count(h) as usize;
    let most = wide(quantization::most_at(block_header::endpoint_range_of(h)));
    let e = s.endpoints;
    !stored_within(&e, count, most)
}

fn bad_weights(s: SymbolicBlock) -> bool
    ensures { result ≡ bad_weights s }
{
    let count = block_header::weight_count(grid_of(s)) as usize;
    let most = wide(quantization::most_at(s.range));
    let w = s.weights;
    !stored_within(&w, count, most)
}

// ---- 35

fn marked_without(s: SymbolicBlock) -> bool
    ensures { result ≡ marked_without s }
{
    let hdr = block_header::some_hdr(header_of(s));
    (s.hdr == 1) & !hdr
}

// 34, then 35
fn number_refusal(s: SymbolicBlock) -> Result<(), Refusal>
    ensures { refusal_told result ≡ first_of (number_reasons s) }
{
    if bad_endpoints(s) | bad_weights(s) {
        return Err(Refusal::Numbers);
    }
    if marked_without(s) {
        return Err(Refusal::HdrMark);
    }
    Ok(())
}

// 1; 31; 32; 14 to 17; 33; 18; 19; 20; 34, and 35
fn mode_refusal(fp: u8, s: SymbolicBlock) -> Result<(), Refusal>
    ensures { refusal_told result ≡ first_of (mode_refusals fp s) }
{
    let h = header_of(s);
    field_refusal(fp, s)?;
    grid_refusal(fp, h)?;
    if modes_misfit(h) {
        return Err(Refusal::Modes);
    }
    block_header::endpoint_fault(s.hdr == 1, h)?;
    number_refusal(s)
}

// ---- void extents

fn bad_extent_fields(fp: u8, s: SymbolicBlock) -> bool
    ensures { result ≡ bad_extent_fields fp s }
{
    let e = s.extents;
    if footprint::is_volume(fp) {
        return !within(&e, 6, 511);
    }
    !within(&e, 4, 8191)
}

fn bad_shown(fp: u8, s: SymbolicBlock) -> bool
    ensures { result ≡ bad_shown fp s }
{
    let c = s.colours;
    let colours = within(&c, 4, 65535);
    let extents = bad_extent_fields(fp, s);
    (1 < s.hdr) | (!colours | extents)
}

fn grid_in_use(s: SymbolicBlock) -> bool
    ensures { result ≡ grid_in_use s }
{
    (0 < s.width) | ((0 < s.height) | ((0 < s.depth) | ((0 < s.range) | (0 < s.planes))))
}

fn partitioning_in_use(s: SymbolicBlock) -> bool
    ensures { result ≡ partitioning_in_use s }
{
    (0 < s.component) | ((0 < s.partitions) | ((0 < s.index) | (0 < s.selector)))
}

fn numbers_in_use(s: SymbolicBlock) -> bool
    ensures { result ≡ numbers_in_use s }
{
    let m = s.modes;
    let e = s.endpoints;
    let w = s.weights;
    let modes = modes_within(m, 0, 0);
    let endpoints = stored_within(&e, 0, 0);
    let weights = stored_within(&w, 0, 0);
    !modes | (!endpoints | !weights)
}

fn bad_void_fields(fp: u8, s: SymbolicBlock) -> bool
    ensures { result ≡ bad_void_fields fp s }
{
    let shown = bad_shown(fp, s);
    let grid = grid_in_use(s);
    let partitioning = partitioning_in_use(s);
    let numbers = numbers_in_use(s);
    shown | (grid | (partitioning | numbers))
}

// 12
fn bad_extents(fp: u8, e: [u16; 6]) -> bool
    ensures { result ≡ bad_extents (is_volume fp) (λ k. get_or e k 0) }
{
    let s0 = long(e[0]);
    let s1 = long(e[1]);
    let t0 = long(e[2]);
    let t1 = long(e[3]);
    let r0 = long(e[4]);
    let r1 = long(e[5]);
    void_extent::bad_extents(footprint::is_volume(fp), s0, s1, t0, t1, r0, r1)
}

// A void extent is refused by 1, 31 and 12 only, by 31 also for any number that it does not use.
fn void_refusal(fp: u8, s: SymbolicBlock) -> Result<(), Refusal>
    ensures { refusal_told result ≡ first_of (void_refusals fp s) }
{
    if unknown_footprint(fp) {
        return Err(Refusal::Footprint);
    }
    if bad_void_fields(fp, s) {
        return Err(Refusal::Field);
    }
    if bad_extents(fp, s.extents) {
        return Err(Refusal::Faulty(Fault::VoidExtent));
    }
    Ok(())
}

// The refusal of a symbolic block at a footprint, where it is not acceptable.
pub fn refusal(fp: u8, s: SymbolicBlock) -> Result<(), Refusal>
    ensures { refusal_told result ≡ refusal_of fp s }
{
    if s.mark == 1 {
        return void_refusal(fp, s);
    }
    mode_refusal(fp, s)
}
