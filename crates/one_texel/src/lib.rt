// One texel of a block, its picture not unpacked: the settings are read once, then the weights around the texel's place, its
// partition, and that partition's endpoint numbers.
#![tactic(auto)]

ghost use Rattle.std.specs.Prelude.{◌≡◌, false, ◌≤◌, ◌<◌, eqb};
ghost use Rattle.laws.specs.Choice.{pick};
ghost use Rattle.bits.specs.Block.{block_number};
ghost use Rattle.footprint.specs.Footprint.{width_of, height_of, is_volume};
ghost use Rattle.partition.specs.inner.Seeds.{select_by, seeds_of};
ghost use Rattle.block_mode.specs.Back2D.{Limits};
ghost use Rattle.block_header.specs.Counts.{weight_count, endpoint_count, endpoint_range_of};
ghost use Rattle.block_fault.specs.Bits.{endpoint_at, weight_at};
ghost use Rattle.texel.specs.Meaning.{texel_from};
ghost use Rattle.one_texel.specs.Texel.{one_texel};

use bits::PhysicalBlock;
use block_fault::{Contents, Settings};
use interpolation::{Kind, Texel};

// A block's fault, 0 for none, and one of its texels, in 16 bits.
#[derive(Clone, Copy)]
pub struct OneTexel {
    pub fault: u8,
    pub texel: Texel,
}

// The partition of the texel at x, y; 0 where there is one partition.
fn partition_of(index: u16, partitions: u8, small: bool, x: u8, y: u8) -> u16
    ensures { result ≡ pick (eqb partitions 1) 0 (select_by (seeds_of index partitions small) x y) }
{
    if partitions == 1 {
        return 0;
    }
    partition::partition_at(partition::partition_seeds(index, partitions, small), x, y)
}

// The texel at x, y of a flat coded block.
fn coded_texel(block: PhysicalBlock, s: Settings, fp: u8, kind: Kind, x: u8, y: u8) -> Texel
    requires grid_bound { (weight_count s.header.grid ≤ 64) × (endpoint_count s.header ≤ 18) }
    requires numbers_value { (s.numbers ≡ endpoint_count s.header) × (s.range ≡ endpoint_range_of s.header) }
    requires limits { Limits s.header.grid }
    requires fp_value { (is_volume fp ≡ false) × (s.header.grid.depth ≡ 1) }
    requires le_partitions { 1 ≤ s.header.partitions }
    requires x_bound { (x < width_of fp) × (y < height_of fp) }
    ensures { result ≡ texel_from fp kind s.header (endpoint_at (block_number block) s.header) (weight_at (block_number block) s.header) x y 0 }
{
    let h = s.header;
    let g = h.grid;
    let across = weight_grid::scale(footprint::width(fp));
    let down = weight_grid::scale(footprint::height(fp));
    let gs = weight_grid::grid_place(across, x, g.width);
    let gt = weight_grid::grid_place(down, y, g.height);
    let both = texel_weights::weights_at(block, h, gs, gt);
    let small = footprint::is_small(fp);
    let p = partition_of(h.index, h.partitions, small, x, y);
    let component = block_core::second_component(g.planes, h.component);
    partition_texel::partition_texel(
        block, h, kind, s.numbers, s.range, p as usize, both, component,
    )
}

// A flat block's fault and its texel at x, y.
pub fn texel_of(block: PhysicalBlock, fp: u8, kind: Kind, x: u8, y: u8) -> OneTexel
    requires fp_bound { fp < 14 }
    requires x_bound { (x < width_of fp) × (y < height_of fp) }
    ensures { result ≡ one_texel fp kind (block_number block) x y }
{
    match block_fault::read_settings(interpolation::takes_hdr(kind), false, block, fp) {
        Err(fault) => OneTexel {
            fault: fault.into(),
            texel: block_core::error_texel(kind),
        },
        Ok(Contents::VoidExtent) => OneTexel {
            fault: 0,
            texel: block_levels::colours(kind, block),
        },
        Ok(Contents::Coded(s)) => OneTexel {
            fault: 0,
            texel: coded_texel(block, s, fp, kind, x, y),
        },
    }
}
