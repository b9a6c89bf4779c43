// Bytes put into a list that the caller lends.
#![tactic(auto)]

ghost use Rattle.std.specs.Prelude.{◌≡◌, length};

// Sixteen bytes into a list of sixteen.
pub fn put_block(from: [u8; 16], block: &mut [u8])
    requires { length block.old ≡ 16 }
    ensures { block.new ≡ from }
{
    block.copy_from_slice(&from);
}
