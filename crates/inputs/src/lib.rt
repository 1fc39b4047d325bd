// Reading into a buffer, for the programs.
#![tactic(auto)]

ghost use Rattle.std.specs.Prelude.{◌<◌, ◌≤◌, length, take, IfOk};
ghost use Rattle.std.specs.Io.KnownBytes.{Consumes, IsAtEnd};

use std::io;
use std::io::Read;

// Reads until `buf` is full or the input ends, and returns how many bytes it put at the start of `buf`. After an error nothing is said of
// `buf`, nor of how far the reader came.
pub fn read_full<R: Read>(reader: &mut R, buf: &mut [u8]) -> io::Result<usize>
    ensures bound { IfOk result (λ n. n ≤ length buf.new) }
    ensures bytes { IfOk result (λ n. Consumes (R.remaining reader.old) (R.remaining reader.new) (take n buf.new)) }
    ensures end { IfOk result (λ n. n < length buf.new → IsAtEnd (R.remaining reader.new)) }
{
    // Kept: the new form is no plainer; a read gives as many bytes as it likes, so that no range or iterator counts these steps.
    let mut done = 0;
    while done < buf.len() {
        let n = reader.read(&mut buf[done..])?;
        if n == 0 {
            break;
        }
        done += n;
    }
    Ok(done)
}

#[cfg(test)]
mod tests {
    use super::*;
    use std::test::Fail;

    // Gives a byte a read as often as it says, and then fails.
    #[derive(Drop)]
    struct Failing(u8);

    impl Read for Failing {
        fn read(&mut self, buf: &mut [u8]) -> io::Result<usize> {
            if self.0 == 0 {
                return Err(io::Error::from(io::ErrorKind::Other));
            }
            self.0 -= 1;
            match buf.first_mut() {
                Some(byte) => {
                    *byte = self.0;
                    Ok(1)
                }
                None => Ok(0),
            }
        }
    }

    #[test]
    fn reads_to_the_end(rt: HostRuntime) -> Result<(), Fail> {
        let mut reader: &[u8] = b"abc";
        let mut buf = [0u8; 4];
        assert_eq!(rt; read_full(&mut reader, &mut buf)?, 3);
        assert_eq!(rt; buf.as_slice(), b"abc\0".as_slice());
        Ok(())
    }

    #[test]
    fn fills_by_single_bytes(rt: HostRuntime) -> Result<(), Fail> {
        let mut reader = Failing(3);
        let mut buf = [0u8; 3];
        assert_eq!(rt; read_full(&mut reader, &mut buf)?, 3);
        assert_eq!(rt; buf.as_slice(), [2, 1, 0].as_slice());
        Ok(())
    }

    #[test]
    fn fails_with_the_reader(rt: HostRuntime) -> Result<(), Fail> {
        let mut reader = Failing(3);
        let mut buf = [0u8; 4];
        assert!(rt; read_full(&mut reader, &mut buf).is_err());
        Ok(())
    }
}
