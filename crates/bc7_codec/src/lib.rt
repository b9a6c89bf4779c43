// A BC7 block read into its sixty fields and written from them. In between they are sixty bytes in the block's order: the mode's mark is the
// first.
#![tactic(auto)]

ghost use Rattle.std.specs.Prelude.{◌≡◌, false, ◌+◌, ◌^◌, ◌≤◌, ◌<◌, ltb, get_or};
ghost use Rattle.laws.specs.Choice.{both, all};
ghost use Rattle.laws.specs.Table.{tab};
ghost use Rattle.reason.specs.Numbers.{refusal_told};
ghost use Rattle.bits.specs.Field.{field, stream};
ghost use Rattle.bits.specs.Block.{block_number};
ghost use Rattle.bc7_layout.specs.Modes.{subsets};
ghost use Rattle.bc7_layout.specs.Layout.{field_width, place_of, mode_at, field_at};
ghost use Rattle.bc7_layout.specs.inner.Plan.{plan_of};
ghost use Rattle.bc7_block.specs.Fields.{value_in};
ghost use Rattle.bc7_block.specs.Refusals.{refusal_of};
ghost use Rattle.bc7_block.specs.Reading.{bc7_block};
ghost use Rattle.bc7_block.specs.Writing.{block_of};
ghost use Rattle.bc7_codec.specs.Numbers.{sheet_number};
ghost use Rattle.bc7_codec.specs.inner.Pieces.{FieldsFit};

use bc7_block::Bc7Block;
use bits::PhysicalBlock;
use reason::Refusal;

// The plan of partition p of a mode.
fn plan_for(m: u8, p: u8) -> u64
    ensures { result ≡ plan_of (subsets m) p }
{
    let row = bc7_layout::mode_row(m);
    bc7_layout::plan_of(row.subsets, p)
}

// All fields of a block in mode m and partition p.
fn fields_in(b: PhysicalBlock, m: u8, p: u8, plan: u64) -> [u8; 60]
    requires { (m < 8) × (plan ≡ plan_of (subsets m) p) }
    ensures { result ≡ tab (λ k. field (block_number b) (place_of m p k) (field_width m p k)) 60 }
{
    let mut f = [0u8; 60];
    let mut at: u32 = 0;
    for k in 0..60usize {
        let w = bc7_layout::width_of(m, p, plan, k);
        f[k] = bc7_layout::small_field(b, at, w);
        at = w + at;
    }
    f
}

// All fields of a block whose mode is m.
pub fn read_fields(b: PhysicalBlock, m: u8) -> [u8; 60]
    requires { (m ≡ mode_at (block_number b)) × (m < 8) }
    ensures { result ≡ tab (field_at (block_number b)) 60 }
{
    let p = bc7_layout::partition_at(b, m);
    fields_in(b, m, p, plan_for(m, p))
}

// ---- fields and sheets

// The N fields from `from` on.
fn run_of<const N: usize>(f: [u8; 60], from: usize) -> [u8; N]
    requires { from + N ≤ 60 }
    ensures { result ≡ tab (λ j. get_or f (from + j) 0) N }
{
    let mut xs = [0u8; N];
    for j in 0..N {
        xs[j] = f[from + j];
    }
    xs
}

// The sheet of a mode and its fields.
pub fn sheet_of(m: u8, f: [u8; 60]) -> Bc7Block
    ensures { result ≡ bc7_block m (λ k. get_or f k 0) }
{
    let endpoints = run_of(f, 4);
    let pbits = run_of(f, 22);
    let primary = run_of(f, 28);
    let secondary = run_of(f, 44);
    Bc7Block {
        mode: m,
        partition: f[1],
        rotation: f[2],
        selection: f[3],
        endpoints,
        pbits,
        primary,
        secondary,
    }
}

fn mark_of(m: u8) -> u8
    requires { m < 8 }
    ensures { result ≡ 2 ^ m }
{
    1 << (m as u32)
}

// Number k of a sheet as a list of sixty: its mode, then its fields in the block's order.
pub fn number_in(s: Bc7Block, k: usize) -> u8
    requires { k < 60 }
    ensures { result ≡ sheet_number s k }
{
    if k == 0 {
        return s.mode;
    }
    if k == 1 {
        return s.partition;
    }
    if k == 2 {
        return s.rotation;
    }
    if k == 3 {
        return s.selection;
    }
    if k < 22 {
        let xs = s.endpoints;
        return xs[k - 4];
    }
    if k < 28 {
        let xs = s.pbits;
        return xs[k - 22];
    }
    if k < 44 {
        let xs = s.primary;
        return xs[k - 28];
    }
    let xs = s.secondary;
    xs[k - 44]
}

// Field k of a sheet.
fn value_in(s: Bc7Block, k: usize) -> u8
    requires { (s.mode < 8) × (k < 60) }
    ensures { result ≡ value_in s k }
{
    if k == 0 {
        return mark_of(s.mode);
    }
    number_in(s, k)
}

// All fields of a sheet.
pub fn fields_of(s: Bc7Block) -> [u8; 60]
    requires { s.mode < 8 }
    ensures { result ≡ tab (value_in s) 60 }
{
    let mut f = [0u8; 60];
    for k in 0..60usize {
        f[k] = value_in(s, k);
    }
    f
}

// ---- writing

fn both(a: bool, b: bool) -> bool
    ensures { result ≡ both a b }
{
    if a { b } else { false }
}

fn fits_width(x: u8, w: u32) -> bool
    requires { w ≤ 8 }
    ensures { result ≡ ltb x (2 ^ w) }
{
    (x as u32) < (1 << w)
}

// Whether each field fits its bits; one without bits has to be 0.
fn all_fit(f: [u8; 60], m: u8, p: u8, plan: u64) -> bool
    requires { (m < 8) × (plan ≡ plan_of (subsets m) p) }
    ensures { result ≡ all (λ k. ltb (get_or f k 0) (2 ^ field_width m p k)) 60 }
{
    let mut ok = true;
    for k in 0..60usize {
        let w = bc7_layout::width_of(m, p, plan, k);
        ok = both(fits_width(f[k], w), ok);
    }
    ok
}

// Refuses a mode above 7, then a field that does not fit its bits.
pub fn check(s: Bc7Block) -> Result<(), Refusal>
    ensures { refusal_told result ≡ refusal_of s }
{
    if 7 < s.mode {
        return Err(Refusal::Bc7Mode);
    }
    let f = fields_of(s);
    let plan = plan_for(s.mode, s.partition);
    if all_fit(f, s.mode, s.partition, plan) {
        return Ok(());
    }
    Err(Refusal::Bc7Field)
}

fn no_bits() -> PhysicalBlock
    ensures { block_number result ≡ 0 }
{
    PhysicalBlock { lo: 0, hi: 0 }
}

fn wide(x: u8) -> u64
    ensures { result ≡ x }
{
    x as u64
}

// Fields that fit, one on top of the other.
fn pile(f: [u8; 60], m: u8, p: u8, plan: u64) -> PhysicalBlock
    requires { FieldsFit f m p × (plan ≡ plan_of (subsets m) p) }
    ensures { block_number result ≡ stream (place_of m p) (λ k. get_or f k 0) 60 }
{
    let mut b = no_bits();
    let mut at: u32 = 0;
    for k in 0..60usize {
        b = bits::append(b, at, wide(f[k]));
        at = bc7_layout::width_of(m, p, plan, k) + at;
    }
    b
}

// The block of an acceptable sheet.
pub fn block_of(s: Bc7Block) -> PhysicalBlock
    requires { refusal_of s ≡ 0 }
    ensures { block_number result ≡ block_of s }
{
    let f = fields_of(s);
    let plan = plan_for(s.mode, s.partition);
    pile(f, s.mode, s.partition, plan)
}
