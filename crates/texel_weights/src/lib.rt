// The weights of one texel: of a block's packed weights only those of the four points around its place on the grid are read.
#![tactic(auto)]

ghost use Rattle.std.specs.Prelude.{◌≡◌, [], ◌∷◌, ℕ, ◌+◌, ◌-◌, ◌*◌, ◌/◌, ◌%◌, ◌^◌, ◌≤◌, ◌<◌, eqb, get_or};
ghost use Rattle.laws.specs.Choice.{pick};
ghost use Rattle.quantization.specs.inner.Words.{RightWords};
ghost use Rattle.bits.specs.Field.{reverse};
ghost use Rattle.bits.specs.Block.{block_number};
ghost use Rattle.encoding.specs.inner.Levels.{first_level, second_level, level_pair};
ghost use Rattle.quantization.specs.Ranges.{encoding_at, bits_at};
ghost use Rattle.integer_sequence.specs.Reading.{sequence_at};
ghost use Rattle.weight_grid.specs.inner.Points.{no_point, read_of};
ghost use Rattle.block_mode.specs.Back2D.{Limits};
ghost use Rattle.block_header.specs.Counts.{weight_count};
ghost use Rattle.texel_weights.specs.inner.Points.{points_at};

use bits::PhysicalBlock;
use block_header::BlockHeader;
use block_mode::WeightGrid;
use encoding::LevelPair;
use sequence_numbers::StoredEight;

// A block's weights as a sequence by itself.
fn weight_sequence(block: PhysicalBlock, g: WeightGrid) -> PhysicalBlock
    requires { weight_count g ≤ 64 }
    ensures { block_number result ≡ sequence_at (encoding_at g.range) (bits_at g.range) (reverse 128 (block_number block)) 0 (weight_count g) }
{
    let w = block_header::weight_bits(g) as u32;
    bits::part(bits::reversed(block), 0, w)
}

// The point whose stored weights stand from place j of a row on, by its range's words: the weights of both planes.
fn point_of(words: &[u64; 4], planes: u8, row: StoredEight, j: u32) -> LevelPair
    requires { j < 7 }
    ensures { (level : ℕ → ℕ) → RightWords level words.now → result ≡ level_pair (level (row.0 / 2 ^ (8 * j) % 256)) (pick (eqb planes 2) (level (row.0 / 2 ^ (8 * (j + 1)) % 256)) 0) }
{
    let low = sequence_numbers::stored_in(row, j);
    let high = sequence_numbers::stored_in(row, j + 1);
    quantization::weight_pair(words, planes, low, high)
}

// The points that are n, its right neighbour, the lower one and the one right of that; at the last column no number behind the point is read.
fn points_at(
    block: PhysicalBlock,
    h: BlockHeader,
    n: usize,
    right: usize,
    below: usize,
) -> [LevelPair; 4]
    requires limits { Limits h.grid × (weight_count h.grid ≤ 64) }
    requires right_bound { (n + below + right < h.grid.width * h.grid.height * h.grid.depth) × (right ≤ 1) }
    ensures { result ≡ get_or (points_at (block_number block) h) n no_point ∷ get_or (points_at (block_number block) h) (n + right) no_point ∷ get_or (points_at (block_number block) h) (n + below) no_point ∷ get_or (points_at (block_number block) h) (n + below + right) no_point ∷ [] }
{
    let g = h.grid;
    let range = g.range;
    let planes = g.planes;
    let s = weight_sequence(block, g);
    let each = planes as usize;
    let first = (n * each) as u32;
    let across = (right * each) as u32;
    let down = (below * each) as u32;
    let rows = sequence_numbers::rows_from(s, range, first, down, across + planes as u32);
    let words = quantization::weight_words(range);
    let p00 = point_of(&words, planes, rows.upper, 0);
    let p01 = point_of(&words, planes, rows.upper, across);
    let p10 = point_of(&words, planes, rows.lower, 0);
    let p11 = point_of(&words, planes, rows.lower, across);
    [p00, p01, p10, p11]
}

// The weights of both planes at gs, gt of a block's weight grid.
pub fn weights_at(block: PhysicalBlock, h: BlockHeader, gs: u32, gt: u32) -> LevelPair
    requires limits { Limits h.grid × (weight_count h.grid ≤ 64) }
    requires gs_bound { (gs ≤ 16 * (h.grid.width - 1)) × (gt ≤ 16 * (h.grid.height - 1)) }
    ensures result_value { first_level result ≡ read_of first_level (points_at (block_number block) h) h.grid.width h.grid.height gs gt }
    ensures result_value_2 { second_level result ≡ read_of second_level (points_at (block_number block) h) h.grid.width h.grid.height gs gt }
{
    let g = h.grid;
    let width = g.width;
    let height = g.height;
    let row = width as usize;
    let n = ((gt / 16) as usize) * row + (gs / 16) as usize;
    let right = weight_grid::step(gs, width, 1);
    let below = weight_grid::step(gt, height, row);
    let p = points_at(block, h, n, right, below);
    weight_grid::infill_both(gs, gt, p[0], p[1], p[2], p[3])
}
