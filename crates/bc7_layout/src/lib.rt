// The layout of BC7 blocks: the eight modes, the partitions, and the bits of each of a block's sixty fields.
#![tactic(auto)]

ghost use Rattle.std.specs.Prelude.{◌≡◌, ◌+◌, ◌-◌, ◌*◌, ◌/◌, ◌%◌, ◌^◌, ◌≤◌, ◌<◌};
ghost use Rattle.bits.specs.Field.{field};
ghost use Rattle.bits.specs.Block.{block_number};
ghost use Rattle.bc7_layout.specs.Modes.{mode_with, mode_row, subsets, partition_bits};
ghost use Rattle.bc7_layout.specs.Layout.{endpoint_width, p_bit_width, primary_width, secondary_width, field_width, mode_at};
ghost use Rattle.bc7_layout.specs.inner.Plan.{plan_of, plan_run, whole_plan};

use bits::PhysicalBlock;

// 004, Table 13.3: subsets, and the bits of partition, rotation, index selection, colours, alpha, P bits for each end and shared, and of both sets
// of indices.
#[derive(Clone, Copy)]
pub struct Mode {
    pub subsets: u8,
    pub partition: u8,
    pub rotation: u8,
    pub selection: u8,
    pub colour: u8,
    pub alpha: u8,
    pub ends: u8,
    pub shared: u8,
    pub index: u8,
    pub secondary: u8,
}

fn made(
    subsets: u8,
    partition: u8,
    rotation: u8,
    selection: u8,
    colour: u8,
    alpha: u8,
    ends: u8,
    shared: u8,
    index: u8,
    secondary: u8,
) -> Mode
    ensures { result ≡ mode_with subsets partition rotation selection colour alpha ends shared index secondary }
{
    Mode {
        subsets,
        partition,
        rotation,
        selection,
        colour,
        alpha,
        ends,
        shared,
        index,
        secondary,
    }
}

// The row of a mode; past the table nothing has bits.
pub fn mode_row(m: u8) -> Mode
    ensures { result ≡ mode_row m }
{
    match m {
        0 => made(3, 4, 0, 0, 4, 0, 1, 0, 3, 0),
        1 => made(2, 6, 0, 0, 6, 0, 0, 1, 3, 0),
        2 => made(3, 6, 0, 0, 5, 0, 0, 0, 2, 0),
        3 => made(2, 6, 0, 0, 7, 0, 1, 0, 2, 0),
        4 => made(1, 0, 2, 1, 5, 6, 0, 0, 2, 3),
        5 => made(1, 0, 2, 0, 7, 8, 0, 0, 2, 2),
        6 => made(1, 0, 0, 0, 7, 7, 1, 0, 4, 0),
        7 => made(2, 6, 0, 0, 5, 5, 1, 0, 2, 0),
        _ => made(0, 0, 0, 0, 0, 0, 0, 0, 0, 0),
    }
}

// ---- partitions

// Tables 13.5 to 13.9 packed, for two subsets and for three: the subset of texel i in bits 2i and 2i + 1, and bit 32 + i set where texel i is an
// anchor. Naming a table writes it out, so each is in four runs of sixteen.
const TWO_0: [u64; 16] = [
    0x8001_50505050,
    0x8001_40404040,
    0x8001_54545454,
    0x8001_54505040,
    0x8001_50404000,
    0x8001_55545450,
    0x8001_55545040,
    0x8001_54504000,
    0x8001_50400000,
    0x8001_55555450,
    0x8001_55544000,
    0x8001_54400000,
    0x8001_55555440,
    0x8001_55550000,
    0x8001_55555500,
    0x8001_55000000,
];

const TWO_16: [u64; 16] = [
    0x8001_55150100,
    0x0005_00004054,
    0x0101_15010000,
    0x0005_00405054,
    0x0005_00004050,
    0x0101_15050100,
    0x0101_05010000,
    0x8001_40505054,
    0x0005_00404050,
    0x0101_05010100,
    0x0005_14141414,
    0x0005_05141450,
    0x0101_01155440,
    0x0101_00555500,
    0x0005_15014054,
    0x0005_05414150,
];

const TWO_32: [u64; 16] = [
    0x8001_44444444,
    0x8001_55005500,
    0x0041_11441144,
    0x0101_05055050,
    0x0005_05500550,
    0x0101_11114444,
    0x8001_41144114,
    0x8001_44111144,
    0x0005_15055054,
    0x0101_01055040,
    0x0005_05041050,
    0x0005_05455150,
    0x0005_14414114,
    0x8001_50050550,
    0x8001_41411414,
    0x0041_00141400,
];

const TWO_48: [u64; 16] = [
    0x0041_00041504,
    0x0005_00105410,
    0x0041_10541000,
    0x0101_04150400,
    0x8001_50410514,
    0x8001_41051450,
    0x0005_05415014,
    0x0005_14054150,
    0x8001_41050514,
    0x8001_41505014,
    0x8001_40011554,
    0x8001_54150140,
    0x8001_50505500,
    0x0005_00555050,
    0x0005_15151010,
    0x8001_54540404,
];

const THREE_0: [u64; 16] = [
    0x8009_AA685050,
    0x0109_6A5A5040,
    0x8101_5A5A4200,
    0x8009_5450A0A8,
    0x8101_A5A50000,
    0x8009_A0A05050,
    0x8009_5555A0A0,
    0x8101_5A5A5050,
    0x8101_AA550000,
    0x8101_AA555500,
    0x8041_AAAA5500,
    0x8041_90909090,
    0x8041_94949494,
    0x8021_A4A4A4A4,
    0x8009_A9A59450,
    0x0109_2A0A4250,
];

const THREE_16: [u64; 16] = [
    0x8009_A5945040,
    0x0109_0A425054,
    0x8101_A5A5A500,
    0x8009_55A0A0A0,
    0x8009_A8A85454,
    0x0109_6A6A4040,
    0x8041_A4A45000,
    0x0501_1A1A0500,
    0x0029_0050A4A4,
    0x8101_AAA59090,
    0x0141_14696914,
    0x0441_69691400,
    0x8101_A08585A0,
    0x8021_AA821414,
    0x8401_50A4A450,
    0x8101_6A5A0200,
];

const THREE_32: [u64; 16] = [
    0x8101_A9A58000,
    0x8009_5090A0A8,
    0x8009_A8A09050,
    0x0421_24242424,
    0x0441_00AA5500,
    0x0501_24924924,
    0x0301_24499224,
    0x8401_50A50A50,
    0x8041_500AA550,
    0x8009_AAAA4444,
    0x8101_66660000,
    0x8021_A5A0A5A0,
    0x8009_50A050A0,
    0x8041_69286928,
    0x8041_44AAAA44,
    0x8101_66666600,
];

const THREE_48: [u64; 16] = [
    0x8009_AA444444,
    0x8009_54A854A8,
    0x8021_95809580,
    0x8021_96969600,
    0x8021_A85454A8,
    0x8101_80959580,
    0x8021_AA141414,
    0x8401_96960000,
    0x8021_AAAA1414,
    0x8401_A05050A0,
    0x8101_A0A5A5A0,
    0xA001_96000000,
    0x8009_40804080,
    0x9001_A9A8A9A8,
    0x8009_AAAAAA44,
    0x0109_2A4A5254,
];

fn two_0() -> [u64; 16]
    ensures { result ≡ plan_run 2 0 }
{
    TWO_0
}

fn two_16() -> [u64; 16]
    ensures { result ≡ plan_run 2 16 }
{
    TWO_16
}

fn two_32() -> [u64; 16]
    ensures { result ≡ plan_run 2 32 }
{
    TWO_32
}

fn two_48() -> [u64; 16]
    ensures { result ≡ plan_run 2 48 }
{
    TWO_48
}

fn three_0() -> [u64; 16]
    ensures { result ≡ plan_run 3 0 }
{
    THREE_0
}

fn three_16() -> [u64; 16]
    ensures { result ≡ plan_run 3 16 }
{
    THREE_16
}

fn three_32() -> [u64; 16]
    ensures { result ≡ plan_run 3 32 }
{
    THREE_32
}

fn three_48() -> [u64; 16]
    ensures { result ≡ plan_run 3 48 }
{
    THREE_48
}

fn two_plan(i: usize) -> u64
    requires { i < 64 }
    ensures { result ≡ plan_of 2 i }
{
    if i < 16 {
        let t = two_0();
        return t[i];
    }
    if i < 32 {
        let t = two_16();
        return t[i - 16];
    }
    if i < 48 {
        let t = two_32();
        return t[i - 32];
    }
    let t = two_48();
    t[i - 48]
}

fn three_plan(i: usize) -> u64
    requires { i < 64 }
    ensures { result ≡ plan_of 3 i }
{
    if i < 16 {
        let t = three_0();
        return t[i];
    }
    if i < 32 {
        let t = three_16();
        return t[i - 16];
    }
    if i < 48 {
        let t = three_32();
        return t[i - 32];
    }
    let t = three_48();
    t[i - 48]
}

// One subset: texel 0 is its anchor.
fn whole() -> u64
    ensures { result ≡ whole_plan }
{
    0x0001_00000000
}

// The plan of partition p of n subsets.
pub fn plan_of(n: u8, p: u8) -> u64
    ensures { result ≡ plan_of n p }
{
    let i = p as usize;
    if 64 <= i {
        return whole();
    }
    if n == 2 {
        return two_plan(i);
    }
    if n == 3 {
        return three_plan(i);
    }
    whole()
}

// The subset of texel i.
pub fn subset_in(plan: u64, i: u32) -> usize
    requires { i < 16 }
    ensures { (result ≡ plan / 2 ^ (2 * i) % 4) × (result < 4) }
{
    ((plan >> (2 * i)) % 4) as usize
}

// The bit that an index lacks where its texel is an anchor.
pub fn anchor_in(plan: u64, i: u32) -> u32
    requires { i < 16 }
    ensures { (result ≡ plan / 2 ^ (32 + i) % 2) × (result ≤ 1) }
{
    ((plan >> (32 + i)) % 2) as u32
}

// ---- reading

// The place of the lowest set bit of the first byte, 8 where none is set.
pub fn mode_at(b: PhysicalBlock) -> u8
    ensures { (result ≡ mode_at (block_number b)) × (result ≤ 8) }
{
    u64::trailing_zeros(bits::field_at(b, 0, 8) + 256) as u8
}

// The w bits of a block from bit p on, at most eight.
pub fn small_field(b: PhysicalBlock, p: u32, w: u32) -> u8
    requires { w ≤ 8 }
    ensures { result ≡ field (block_number b) p w }
{
    bits::field_at(b, p, w) as u8
}

// The partition, behind the mode's mark.
pub fn partition_at(b: PhysicalBlock, m: u8) -> u8
    requires { m < 8 }
    ensures { (result ≡ field (block_number b) (m + 1) (partition_bits m)) × (result < 2 ^ partition_bits m) }
{
    let row = mode_row(m);
    small_field(b, m as u32 + 1, row.partition as u32)
}

// ---- the bits of a field

fn wide(x: u8) -> u32
    ensures { (result ≡ x) × (result ≤ 255) }
{
    x as u32
}

fn less(x: u32, y: u32) -> u32
    ensures { (result ≡ x - y) × (result ≤ x) }
{
    if x < y { 0 } else { x - y }
}

fn endpoint_width(m: u8, j: usize) -> u32
    ensures { (result ≡ endpoint_width m j) × (result ≤ 255) }
{
    let w = mode_row(m);
    if j < 6 * (w.subsets as usize) {
        return wide(w.colour);
    }
    if j < 8 * (w.subsets as usize) {
        return wide(w.alpha);
    }
    0
}

fn p_bit_width(m: u8, j: usize) -> u32
    ensures { (result ≡ p_bit_width m j) × (result ≤ 255) }
{
    let w = mode_row(m);
    if j < (2 * (w.ends as usize) + (w.shared as usize)) * (w.subsets as usize) {
        1
    } else {
        0
    }
}

fn primary_width(m: u8, p: u8, plan: u64, i: u32) -> u32
    requires { (plan ≡ plan_of (subsets m) p) × (i < 16) }
    ensures { (result ≡ primary_width m p i) × (result ≤ 255) }
{
    let w = mode_row(m);
    less(wide(w.index), anchor_in(plan, i))
}

fn secondary_width(m: u8, i: usize) -> u32
    ensures { (result ≡ secondary_width m i) × (result ≤ 255) }
{
    let w = mode_row(m);
    if i == 0 {
        return less(wide(w.secondary), 1);
    }
    wide(w.secondary)
}

fn header_width(m: u8, k: usize) -> u32
    requires { k < 4 }
    ensures { (result ≡ field_width m 0 k) × (result ≤ 256) }
{
    let w = mode_row(m);
    if k == 0 {
        return wide(m) + 1;
    }
    if k == 1 {
        return wide(w.partition);
    }
    if k == 2 {
        return wide(w.rotation);
    }
    wide(w.selection)
}

// The bits of field k in mode m and partition p, of which this is the plan.
pub fn width_of(m: u8, p: u8, plan: u64, k: usize) -> u32
    requires { plan ≡ plan_of (subsets m) p }
    ensures { (result ≡ field_width m p k) × (result ≤ 256) }
{
    if k < 4 {
        return header_width(m, k);
    }
    if k < 22 {
        return endpoint_width(m, k - 4);
    }
    if k < 28 {
        return p_bit_width(m, k - 22);
    }
    if k < 44 {
        return primary_width(m, p, plan, (k - 28) as u32);
    }
    secondary_width(m, k - 44)
}
