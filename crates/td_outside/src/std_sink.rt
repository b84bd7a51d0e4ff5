//! The sink over standard output, or another writer of std.
ghost use Rattle.std.specs.Prelude.{◌≡◌, ℕ, None};

use crate::again::write_again;
use crate::{Failed, Sink};
use std::io;
use std::io::{ErrorKind, Write};
use std::marker::Model;

/// A sink over a writer, as standard output. Each piece is written through. Each error of the writer is `Failed`,
/// with the count raised: a closed output, a broken pipe, a full disk. A write that a signal broke off is made again.
/// Contracts see the count.
#[derive(Drop)]
pub struct StdSink<W: Write + Drop> {
    to: W,
    faults: u64,
    is_unread: bool,
}

impl<W: Write + Drop> Model for StdSink<W> {
    ghost Value = { ℕ };

    ghost view = { λ s. s.faults };
}

impl<W: Write + Drop> StdSink<W> {
    /// A sink over the writer.
    pub fn new(to: W) -> Self
        /// See `FileSource::new`.
        ensures { result ≡ 0 }
    {
        StdSink {
            to,
            faults: 0,
            is_unread: false,
        }
    }

    /// Whether the last write failed since nobody reads any more: a broken pipe.
    pub fn is_unread(&self) -> bool {
        self.is_unread
    }
}

// Whether a write failed since nobody reads.
fn is_unread(answer: &io::Result<usize>) -> bool {
    match answer {
        Ok(_) => false,
        Err(error) => error.kind() == ErrorKind::BrokenPipe,
    }
}

impl<W: Write + Drop> Sink for StdSink<W> {
    ghost state = { λ faults. record { holds = None; pieces = None; faults = faults } };

    fn write(&mut self, piece: &[u8]) -> Result<usize, Failed> {
        let answer = write_again(&mut self.to, piece);
        self.is_unread = is_unread(&answer);
        match answer {
            Ok(count) if count > 0 || piece.is_empty() => Ok(count),
            _ => {
                self.faults = self.faults.saturating_add(1);
                Err(Failed)
            }
        }
    }
}
