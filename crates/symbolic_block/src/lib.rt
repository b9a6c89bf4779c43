// A block's settings and numbers apart from its bits: the field's symbolic block, 01's sheet. Definitions and theorems only.
#![tactic(auto)]

use encoding::Stored;

// 01, "Fields", in its order. Void-extent blocks (mark 1; 01: solid) use the colours and the extents, all others the rest.
#[derive(Clone, Copy)]
pub struct SymbolicBlock {
    // 01: solid mark
    pub mark: u8,
    // 02, i: HDR mark, which both use
    pub hdr: u8,
    // R, G, B, A
    pub colours: [u16; 4],
    // low s, high s, low t, high t; 02, h: of volumes also low r, high r, which are 0 in flat ones
    pub extents: [u16; 6],
    pub width: u8,
    pub height: u8,
    // 02, h: 1 in a flat mode sheet
    pub depth: u8,
    pub range: u8,
    pub planes: u8,
    // 01: plane channel
    pub component: u8,
    pub partitions: u8,
    pub index: u16,
    pub selector: u8,
    pub modes: [u8; 4],
    // "both as stored and in stream order"
    pub endpoints: [Stored; 18],
    pub weights: [Stored; 64],
}
