//! The options that are left, in order.
ghost use Rattle.std.specs.Prelude.{◌≤◌, length};
ghost use Rattle.std.specs.Iterator.{YieldsFirst, item_count};

use crate::opt::{Opt, option_of};
use crate::walk::len_at;

/// The options that are left, in order.
#[derive(Clone, Copy, Debug)]
pub struct Options<'a> {
    pub(crate) bytes: &'a [u8],
    pub(crate) at: usize,
    ghost inside: { at ≤ length bytes.now },
}

impl Iterator for Options<'_> {
    type Item = Opt;

    ghost use Rattle.icmp6.specs.Blocks.{options_left};

    ghost next_gives = { YieldsFirst options_left };

    ghost remaining = { item_count options_left };

    fn next(&mut self) -> Option<Opt> {
        let at = self.at;
        let Ok(len) = len_at(self.bytes, at) else {
            return None;
        };
        self.at = at + len;
        Some(option_of(at, &self.bytes[at..at + len]))
    }
}
