// Where the words of a PVRTC1 image lie: the reflected Morton order.
#![tactic(auto)]

ghost use Rattle.std.specs.Prelude.{◌≡◌, ◌+◌, ◌^◌, ◌≤◌, ◌<◌};
ghost use Rattle.pvrtc_order.specs.Order.{word_place};

// The place of the word in column x, of xb bits, and row y, of yb bits. Bits of both are taken by turns as long as both have one left.
pub fn word_place(xb: u32, yb: u32, x: u32, y: u32) -> u32
    requires { (xb + yb ≤ 20) × (x < 2 ^ xb) × (y < 2 ^ yb) }
    ensures { result ≡ word_place xb yb x y }
{
    let mut place: u32 = 0;
    let mut a = x;
    let mut b = y;
    let turns = xb.min(yb);
    for k in 0..turns {
        place += (a % 2 * 2 + b % 2) << (2 * k);
        a /= 2;
        b /= 2;
    }
    place + ((a + b) << (2 * turns))
}
