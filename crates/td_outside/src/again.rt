//! Calls of the system that are made again where a signal broke them off.
ghost use Rattle.std.specs.Prelude.{◌≤◌, length, IfOk};

use std::io;
use std::io::{ErrorKind, Read, Write};

// The most times that a call is broken off: a bound on the loop alone.
const BREAKS_MAX: u32 = 1 << 20;

// Whether a signal broke a call off.
fn is_broken_off(answer: &io::Result<usize>) -> bool {
    match answer {
        Ok(_) => false,
        Err(error) => error.kind() == ErrorKind::Interrupted,
    }
}

/// Reads once.
pub(crate) fn read_again<F: Read>(file: &mut F, buf: &mut [u8]) -> io::Result<usize>
    ensures { IfOk result (λ n. n ≤ length buf.new) }
{
    for _ in 0..BREAKS_MAX {
        let answer = file.read(buf);
        if !is_broken_off(&answer) {
            return answer;
        }
    }
    file.read(buf)
}

/// Writes once.
pub(crate) fn write_again<W: Write>(to: &mut W, piece: &[u8]) -> io::Result<usize>
    ensures { IfOk result (λ n. n ≤ length piece.now) }
{
    for _ in 0..BREAKS_MAX {
        let answer = to.write(piece);
        if !is_broken_off(&answer) {
            return answer;
        }
    }
    to.write(piece)
}
