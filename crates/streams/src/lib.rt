// Reading and printing for the programs, over std's readers and writers.
//
// A call that a signal interrupts before it moves a byte counts as one that failed.
#![tactic(auto)]

ghost use Rattle.std.specs.Prelude.{◌≡◌, ◌<◌, length, take, replicate, OnOk, IfOk};
ghost use Rattle.std.specs.Fmt.{decimal};
ghost use Rattle.std.specs.Io.KnownBytes.{Appends, Consumes, IsAtEnd};
ghost use Rattle.streams.specs.Counts.{IsPrefixLen};

use std::io;
use std::io::{Error, ErrorKind, Read, Write};

// An array of one byte, again and again.
pub fn filled<const N: usize>(byte: u8) -> [u8; N]
    ensures len { N ≡ length result }
    ensures bytes { result ≡ replicate N byte }
{
    [byte; N]
}

// Reads until `buf` is full, the input ends or a read fails. Answers with how many bytes it put at the start of `buf`, and whether a read failed.
// The loop is written out since std's `read_exact` does not say how many bytes came before the end or a failure.
fn fill<R: Read>(from: &mut R, buf: &mut [u8]) -> (usize, io::Result<()>)
    ensures count { IsPrefixLen result.0 buf.new }
    ensures bytes { Consumes (R.remaining from.old) (R.remaining from.new) (take result.0 buf.new) }
    ensures end { OnOk result.1 (result.0 < length buf.new → IsAtEnd (R.remaining from.new)) }
{
    let mut done = 0;
    while done < buf.len() {
        match from.read(&mut buf[done..]) {
            Ok(0) => break,
            Ok(n) => done += n,
            Err(e) => return (done, Err(e)),
        }
    }
    (done, Ok(()))
}

// Reads until `buf` is full, the input ends or a read fails. Answers with how many bytes it put at the start of `buf`.
pub fn read_full<R: Read>(from: &mut R, buf: &mut [u8]) -> usize
    ensures count { IsPrefixLen result buf.new }
    ensures bytes { Consumes (R.remaining from.old) (R.remaining from.new) (take result buf.new) }
{
    fill(from, buf).0
}

// The same, but a read that fails is no end of the input.
pub fn read_input<R: Read>(from: &mut R, buf: &mut [u8]) -> io::Result<usize>
    ensures count { IfOk result (λ n. IsPrefixLen n buf.new) }
    ensures bytes { IfOk result (λ n. Consumes (R.remaining from.old) (R.remaining from.new) (take n buf.new)) }
    ensures end { IfOk result (λ n. n < length buf.new → IsAtEnd (R.remaining from.new)) }
{
    let (n, read) = fill(from, buf);
    read?;
    Ok(n)
}

// Writes all of `bytes`, or stops at the first write that takes nothing or fails. The loop is written out since the message of std's
// `write_all` would stand in the image of line_reader, whose read-only data is weighed (tools/read_only_data.py).
pub fn write_all<W: Write>(to: &mut W, bytes: &[u8]) -> io::Result<()>
    ensures { OnOk result (Appends (W.contents to.old) (W.contents to.new) bytes.now) }
{
    let mut done = 0;
    while done < bytes.len() {
        match to.write(&bytes[done..])? {
            0 => return Err(Error::from(ErrorKind::WriteZero)),
            n => done += n,
        }
    }
    Ok(())
}

// Writes a number's decimal digits, all by one `write_all`: std's `write!` would try again where a signal interrupts a write.
pub fn print_decimal<W: Write>(to: &mut W, n: u64) -> io::Result<()>
    ensures { OnOk result (Appends (W.contents to.old) (W.contents to.new) (decimal n)) }
{
    let mut digits = [b'0'; 20];
    let mut at = 19;
    let mut left = n;
    while left >= 10 {
        digits[at] = b'0' + (left % 10) as u8;
        left /= 10;
        at -= 1;
    }
    digits[at] = b'0' + left as u8;
    write_all(to, &digits[at..])
}

#[cfg(test)]
mod tests {
    use super::*;
    use std::io::{Error, ErrorKind, Result};

    // Gives a byte for each call while it has some, and fails from then on.
    #[derive(Drop)]
    struct Failing {
        left: usize,
    }

    impl Read for Failing {
        fn read(&mut self, buf: &mut [u8]) -> Result<usize> {
            if self.left == 0 || buf.len() == 0 {
                return Err(Error::from(ErrorKind::Other));
            }
            self.left -= 1;
            buf[0] = 7;
            Ok(1)
        }
    }

    // Takes a byte for each call while it has room, and fails from then on.
    impl Write for Failing {
        fn write(&mut self, bytes: &[u8]) -> Result<usize> {
            if self.left == 0 || bytes.len() == 0 {
                return Err(Error::from(ErrorKind::Other));
            }
            self.left -= 1;
            Ok(1)
        }

        fn flush(&mut self) -> Result<()> {
            Ok(())
        }
    }

    #[test]
    fn reads_until_full_or_failed(rt: HostRuntime) {
        let mut buf = [0u8; 4];
        assert_eq!(rt; read_full(&mut Failing { left: 9 }, &mut buf), 4);
        assert_eq!(rt; buf[3], 7);
        let mut buf = [0u8; 4];
        assert_eq!(rt; read_full(&mut Failing { left: 3 }, &mut buf), 3);
        assert_eq!(rt; buf[2], 7);
        assert_eq!(rt; buf[3], 0);
    }

    #[test]
    fn reads_until_the_end(rt: HostRuntime) {
        let mut input: &[u8] = b"abcde";
        let mut buf = [0u8; 4];
        assert_eq!(rt; read_full(&mut input, &mut buf), 4);
        assert_eq!(rt; buf[3], b'd');
        assert_eq!(rt; read_full(&mut input, &mut buf), 1);
        assert_eq!(rt; buf[0], b'e');
        assert_eq!(rt; read_full(&mut input, &mut buf), 0);
    }

    #[test]
    fn tells_a_failed_read_from_the_end(rt: HostRuntime) {
        let mut buf = [0u8; 4];
        assert!(rt; read_input(&mut Failing { left: 3 }, &mut buf).is_err());
        assert_eq!(rt; buf[2], 7);
        let mut input: &[u8] = b"abc";
        assert_eq!(rt; read_input(&mut input, &mut buf).ok(), Some(3));
        assert_eq!(rt; read_input(&mut input, &mut buf).ok(), Some(0));
    }

    #[test]
    fn tells_whether_all_is_written(rt: HostRuntime) {
        assert!(rt; write_all(&mut Failing { left: 3 }, b"abc").is_ok());
        assert!(rt; write_all(&mut Failing { left: 2 }, b"abc").is_err());
        assert!(rt; print_decimal(&mut Failing { left: 3 }, 307).is_ok());
        assert!(rt; print_decimal(&mut Failing { left: 2 }, 307).is_err());
        assert!(rt; write!(&mut Failing { left: 3 }, "{}", 307).is_ok());
        assert!(rt; write!(&mut Failing { left: 2 }, "{}", 307).is_err());
    }

    #[test]
    fn fills(rt: HostRuntime) {
        let three = filled::<3>(7);
        assert_eq!(rt; three, [7, 7, 7]);
    }
}
