// A BC7 block's settings and numbers apart from its bits: request l's sheet. Definitions and theorems only.
#![tactic(auto)]

// In the block's order. Fields that a mode does not have are unused, and 0.
#[derive(Clone, Copy)]
pub struct Bc7Block {
    pub mode: u8,
    pub partition: u8,
    pub rotation: u8,
    pub selection: u8,
    // as stored: R of the first subset's two ends, of the second's, of the third's; then G, B and A alike
    pub endpoints: [u8; 18],
    pub pbits: [u8; 6],
    // primary and secondary indices, texels in raster order
    pub primary: [u8; 16],
    pub secondary: [u8; 16],
}
