//! The bytes of a named source.
ghost use Rattle.std.specs.Prelude.{◌≡◌, ◌≤◌, ◌<◌, length, IfOk, OnOk, IsErrOf};
ghost use Rattle.std.specs.Io.KnownBytes.{Consumes, IsAtEnd};
ghost use Rattle.td_outside.specs.Causes.{Rose};
ghost use Rattle.td_outside.specs.Moves.{Stays, Gains};
ghost use Rattle.commands.specs.SourceText.{IsTextOf, TakesAtMost, unread_status};

use crate::statuses::{NO_MEMORY, UNREADABLE};
use std::alloc::{AllocError, Global};
use td_outside::{Failed, Source};

/// Why a source was not read.
#[derive(Clone, Copy, Debug, PartialEq, Eq)]
pub enum ReadFault {
    Failed,
    NoMemory,
}

impl From<Failed> for ReadFault {
    ghost use Rattle.commands.specs.declared.source_text.ReadFault.TheVariants as faults;

    ghost from_gives = { λ _ e. e ≡ faults.Failed };

    fn from(_: Failed) -> Self {
        ReadFault::Failed
    }
}

impl From<AllocError> for ReadFault {
    ghost use Rattle.commands.specs.declared.source_text.ReadFault.TheVariants as faults;

    ghost from_gives = { λ _ e. e ≡ faults.NoMemory };

    fn from(_: AllocError) -> Self {
        ReadFault::NoMemory
    }
}

/// The status of a run whose source was not read.
impl From<ReadFault> for u8 {
    ghost from_gives = { λ fault status. status ≡ unread_status fault };

    fn from(fault: ReadFault) -> Self {
        match fault {
            ReadFault::Failed => UNREADABLE,
            ReadFault::NoMemory => NO_MEMORY,
        }
    }
}

/// How many bytes are read at once.
const BYTES_AT_ONCE: usize = 65_536;

/// Reads what is left, and no more than `most` bytes.
fn read_rest<S: Source>(alloc: Global, src: &mut S, most: usize) -> Result<Vec<u8>, ReadFault>
    ensures front { IfOk result (λ text. Consumes (S.state src.old).left (S.state src.new).left text.items) }
    ensures most { IfOk result (λ text. length text.items ≤ most) }
    ensures whole { IfOk result (λ text. length text.items < most → IsAtEnd (S.state src.new).left) }
    ensures asked { Stays (S.state src.old).openings (S.state src.new).openings }
    ensures taken { TakesAtMost most (S.state src.old).taken (S.state src.new).taken }
    ensures quiet { OnOk result ((S.state src.new).faults ≡ (S.state src.old).faults) }
    ensures starved { IsErrOf result ReadFault.NoMemory → (S.state src.new).faults ≡ (S.state src.old).faults }
    ensures failed { IsErrOf result ReadFault.Failed → Rose (S.state src.old).faults (S.state src.new).faults }
{
    let mut text = Vec::new(alloc);
    let mut piece = [0u8; BYTES_AT_ONCE];
    while text.len() < most {
        let room = BYTES_AT_ONCE.min(most - text.len());
        let count = src.read(&mut piece[..room])?;
        if count == 0 {
            break;
        }
        text.extend_from_slice(&piece[..count])?;
    }
    Ok(text)
}

/// Reads the named thing to its end, or to `most` bytes.
pub fn read_named<S: Source>(
    alloc: Global,
    src: &mut S,
    name: &str,
    most: usize,
) -> Result<Vec<u8>, ReadFault>
    /// What is read of a file is all of its bytes, or as many as were asked for; only it is opened, once, and no more
    /// of it is taken. Where the count rose the answer is that it failed, and nowhere else.
    ensures text { IfOk result (λ text. IsTextOf ((S.state src.old).stands_for name.now) most text.items) }
    /// See `text`.
    ensures asked { Gains (S.state src.old).openings (S.state src.new).openings name.now }
    /// See `text`.
    ensures taken { TakesAtMost most (S.state src.old).taken (S.state src.new).taken }
    /// See `text`.
    ensures quiet { OnOk result ((S.state src.new).faults ≡ (S.state src.old).faults) }
    /// See `text`.
    ensures starved { IsErrOf result ReadFault.NoMemory → (S.state src.new).faults ≡ (S.state src.old).faults }
    /// See `text`.
    ensures failed { IsErrOf result ReadFault.Failed → Rose (S.state src.old).faults (S.state src.new).faults }
{
    src.open(name)?;
    read_rest(alloc, src, most)
}
