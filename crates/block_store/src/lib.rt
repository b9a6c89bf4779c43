// The sixteen bytes of a block stored in a lent list.
#![tactic(auto)]

ghost use Rattle.std.specs.Prelude.{◌+◌, ◌≤◌, length};
ghost use Rattle.block_store.specs.inner.Places.{Put};

// A block's bytes from place `at` on.
pub fn put(out: &mut [u8], at: usize, bytes: [u8; 16])
    requires { at + 16 ≤ length out.old }
    ensures { Put at 16 bytes out.old out.new }
{
    for k in 0..16 {
        out[at + k] = bytes[k];
    }
}
