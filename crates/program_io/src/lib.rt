// What the programs read and write with: bytes from any reader, numbers to any writer. Nothing here allocates.
#![tactic(auto)]

ghost use Rattle.std.specs.Prelude.{ℕ, ◌<◌, IfOk, OnOk, length, take};
ghost use Rattle.std.specs.Fmt.{decimal};
ghost use Rattle.std.specs.Io.{ReadsAtMost};
ghost use Rattle.std.specs.Io.KnownBytes.{Appends, Consumes, IsAtEnd};

use std::io;
use std::io::{Read, Write};

// Reads until the buffer is full or the input ends, and returns how many bytes it put at the start of the buffer. A read that fails ends it with
// that read's error.
pub fn read_full<R: Read>(input: &mut R, buffer: &mut [u8]) -> io::Result<usize>
    ensures bound { ReadsAtMost result buffer.new }
    // what the input had first, and no more of it
    ensures bytes { IfOk result (λ n. Consumes (R.remaining input.old) (R.remaining input.new) (take n buffer.new)) }
    // a buffer that is not full tells that the input has ended
    ensures end { IfOk result (λ n. n < length buffer.new → IsAtEnd (R.remaining input.new)) }
{
    let mut done: usize = 0;
    // Kept a while: a read gives as many bytes as it likes, so that no index counts up by one.
    while done < buffer.len() {
        let n = input.read(&mut buffer[done..])?;
        if n == 0 {
            break;
        }
        done += n;
    }
    Ok(done)
}

// Writes the number's decimal digits.
pub fn print_decimal<W: Write>(output: &mut W, n: u64) -> io::Result<()>
    ensures { OnOk result (Appends (W.contents output.old) (W.contents output.new) (decimal n)) }
{
    write!(output, "{n}")
}

#[cfg(test)]
mod tests {
    use super::*;

    // Gives its count down a byte at a time, and then fails.
    #[derive(Drop)]
    struct Trickle(u8);

    impl Read for Trickle {
        fn read(&mut self, buffer: &mut [u8]) -> io::Result<usize> {
            if self.0 == 0 {
                return Err(io::Error::other("no more"));
            }
            if buffer.is_empty() {
                return Ok(0);
            }
            buffer[0] = self.0;
            self.0 -= 1;
            Ok(1)
        }
    }

    #[test]
    fn short_reads_are_joined_and_an_error_is_handed_on(rt: HostRuntime) -> io::Result<()> {
        let mut input = Trickle(6);
        let mut buffer = [0u8; 4];
        let n = read_full(&mut input, &mut buffer)?;
        assert_eq!(rt; n, 4);
        assert_eq!(rt; buffer, [6, 5, 4, 3]);
        assert!(rt; read_full(&mut input, &mut buffer).is_err());
        assert!(rt; read_full(&mut input, &mut buffer).is_err());
        Ok(())
    }

    #[test]
    fn input_that_ends_gives_fewer_bytes(rt: HostRuntime) -> io::Result<()> {
        let mut input: &[u8] = b"abc";
        let mut buffer = [0u8; 5];
        let n = read_full(&mut input, &mut buffer)?;
        assert_eq!(rt; n, 3);
        assert_eq!(rt; &buffer[..3], b"abc".as_slice());
        let n = read_full(&mut input, &mut buffer)?;
        assert_eq!(rt; n, 0);
        Ok(())
    }

    #[test]
    fn numbers_are_decimal(rt: HostRuntime) -> io::Result<()> {
        let mut output = Vec::new(rt.alloc());
        print_decimal(&mut output, 0)?;
        output.write_all(b" ")?;
        print_decimal(&mut output, 1050)?;
        output.write_all(b" ")?;
        print_decimal(&mut output, u64::MAX)?;
        assert_eq!(rt;
            output.as_slice(),
            b"0 1050 18446744073709551615".as_slice()
        );
        Ok(())
    }
}
