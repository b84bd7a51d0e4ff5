//! The source over files.
ghost use Rattle.std.specs.Prelude.{◌≡◌, ◌≤◌, ◌<◌, false, None, Ok, length, is_some, is_ok, is_err, IfOk};
ghost use Rattle.td_outside.specs.Causes.{HasCause};
ghost use Rattle.td_outside.specs.FileSource.{FileState, file_after};

use crate::again::read_again;
use crate::{Failed, Source};
use std::fs;
use std::marker::Model;
use std::rt::Files;

/// A source over the files that a runtime reaches. Each error of the system is `Failed`, with the count raised:
/// no such file at `open`, a directory at the first `read`. A read that a signal broke off is made again. Contracts see whether a file is open, and the count.
#[derive(Drop)]
pub struct FileSource<'a, R: Files> {
    rt: &'a R,
    file: Option<R::File>,
    faults: u64,
}

impl<'a, R: Files> Model for FileSource<'a, R> {
    ghost Value = { FileState };

    ghost view = { λ s. record { is_open = is_some s.file; faults = s.faults } };
}

impl<'a, R: Files> FileSource<'a, R> {
    /// A source with nothing open.
    pub fn new(rt: &'a R) -> Self
        /// An adapter begins with nothing open and no faults, and a clock with no moment given.
        ensures { result ≡ record { is_open = false; faults = 0 } }
    {
        FileSource {
            rt,
            file: None,
            faults: 0,
        }
    }
}

impl<R: Files> Source for FileSource<'_, R> {
    ghost state = { λ s. record { stands_for = λ name. None; left = None; openings = None; taken = None; faults = s.faults } };

    fn open(&mut self, name: &str) -> Result<(), Failed>
        ensures cause { HasCause self.old.faults self.new.faults result }
        /// See `FileSource::read`: `shut`.
        ensures state { self.new ≡ file_after self.old (is_ok result) (is_err result) }
    {
        self.file = None;
        match fs::open(self.rt, name) {
            Ok(file) => {
                self.file = Some(file);
                Ok(())
            }
            Err(_) => {
                self.faults = self.faults.saturating_add(1);
                Err(Failed)
            }
        }
    }

    fn read(&mut self, buf: &mut [u8]) -> Result<usize, Failed>
        requires { 0 < length buf.old }
        ensures bound { IfOk result (λ n. n ≤ length buf.new) }
        /// A `FileSource` gives 0 before `open`, and after an `open` that failed.
        ensures shut { self.old.is_open ≡ false → result ≡ Ok 0 }
        ensures cause { HasCause self.old.faults self.new.faults result }
        /// See `shut`.
        ensures state { self.new ≡ file_after self.old self.old.is_open (is_err result) }
    {
        let Some(file) = &mut self.file else {
            return Ok(0);
        };
        match read_again(file, buf) {
            Ok(count) => Ok(count),
            Err(_) => {
                self.faults = self.faults.saturating_add(1);
                Err(Failed)
            }
        }
    }
}
