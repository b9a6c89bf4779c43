// The twenty-four footprints, flat ones and volumes: how many texels a block covers.
#![tactic(auto)]

ghost use Rattle.std.specs.Prelude.{◌≡◌, ◌≤◌, ◌-◌, ◌*◌, ◌/◌, ◌%◌, ◌^◌, ltb};
ghost use Rattle.laws.specs.Choice.{pick};
ghost use Rattle.footprint.specs.Footprint.{sides_of, width_of, height_of, depth_of, texels_of, is_volume, is_small};

// A block's sides in texels.
#[derive(Clone, Copy)]
pub struct Footprint {
    pub width: u8,
    pub height: u8,
    // 1 in a flat one
    pub depth: u8,
}

// 01, "What is covered": the widths of footprints 0 to 13, four bits each, footprint 0 lowest; then the heights. Their depth is 1.
const WIDTHS: u64 = 0xCCAAAA88866554;

const HEIGHTS: u64 = 0xCAA86586565544;

const DEPTHS: u64 = 0x11111111111111;

// 02, h: the same of footprints 14 to 23.
const VOLUME_WIDTHS: u64 = 0x6665554443;

const VOLUME_HEIGHTS: u64 = 0x6655544433;

const VOLUME_DEPTHS: u64 = 0x6555444333;

// The footprint's four bits of the flat ones' or the volumes'; 0 where there is no such footprint.
fn side_in(flat: u64, volumes: u64, fp: u8) -> u8
    ensures { result ≡ pick (ltb fp 14) (flat / 2 ^ (4 * fp) % 16) (pick (ltb fp 24) (volumes / 2 ^ (4 * (fp - 14)) % 16) 0) }
{
    if fp < 14 {
        return ((flat >> (4 * (fp as u32))) % 16) as u8;
    }
    if fp < 24 {
        return ((volumes >> (4 * ((fp as u32) - 14))) % 16) as u8;
    }
    0
}

// The sides of a footprint; all 0 where there is no such footprint.
pub fn sides_of(fp: u8) -> Footprint
    ensures { result ≡ sides_of fp }
{
    Footprint {
        width: side_in(WIDTHS, VOLUME_WIDTHS, fp),
        height: side_in(HEIGHTS, VOLUME_HEIGHTS, fp),
        depth: side_in(DEPTHS, VOLUME_DEPTHS, fp),
    }
}

// Texels across a block; 0 where there is no such footprint.
pub fn width(fp: u8) -> u8
    ensures { result ≡ width_of fp }
{
    let f = sides_of(fp);
    f.width
}

// Texels down a block; 0 where there is no such footprint.
pub fn height(fp: u8) -> u8
    ensures { result ≡ height_of fp }
{
    let f = sides_of(fp);
    f.height
}

// Layers of texels in a block, 1 in a flat one; 0 where there is no such footprint.
pub fn depth(fp: u8) -> u8
    ensures { result ≡ depth_of fp }
{
    let f = sides_of(fp);
    f.depth
}

// A product that a number of 16 bits holds.
fn times(a: u16, b: u8) -> u16
    requires { a * b ≤ 65535 }
    ensures { result ≡ a * b }
{
    a * (b as u16)
}

// Texels in a block; 0 where there is no such footprint.
pub fn texels(fp: u8) -> u16
    ensures { result ≡ texels_of fp }
{
    let layer = (width(fp) as u16) * (height(fp) as u16);
    times(layer, depth(fp))
}

// Footprints 14 to 23 are volumes.
pub fn is_volume(fp: u8) -> bool
    ensures { result ≡ is_volume fp }
{
    13 < fp
}

// A block of fewer than 31 texels, whose partitions take places doubled.
pub fn is_small(fp: u8) -> bool
    ensures { result ≡ is_small fp }
{
    texels(fp) < 31
}
