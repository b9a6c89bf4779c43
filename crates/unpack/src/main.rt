// 01, "The program": reads a footprint, a kind and a block, 18 bytes in all, and writes the block's fault and its texels. What it writes is
// made by `unpack_text::program_text`.
#![tactic(auto)]

ghost use Rattle.std.specs.Prelude.{IfSome, OnOk};
ghost use Rattle.std.specs.Io.KnownBytes.{Appends};
ghost use Rattle.unpack_text.specs.Text.{program_text};

use std::io;
use std::io::{Read, Write};

// Writes the text of all that the input holds. A nineteenth byte tells that it is too long; no more are read.
fn write_text<R: Read, W: Write>(input: &mut R, output: &mut W) -> io::Result<()>
    ensures { OnOk result (IfSome (R.remaining input.old) (λ bytes.
        Appends (W.contents output.old) (W.contents output.new) (program_text bytes))) }
{
    let mut buffer = [0u8; 19];
    let count = program_io::read_full(input, &mut buffer)?;
    let mut text = [0u8; 5200];
    let n = unpack_text::program_text(&buffer[..count], &mut text);
    output.write_all(&text[..n])
}

fn main(rt: HostRuntime) -> io::Result<()> {
    write_text(&mut rt.stdin(), &mut rt.stdout())
}
