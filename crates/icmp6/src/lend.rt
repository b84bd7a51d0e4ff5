//! The options of a message that was read.
ghost use Rattle.std.specs.Prelude.{◌≡◌, ℕ, List};
ghost use Rattle.std.specs.List.{AllByRecursion};
ghost use Rattle.icmp6.specs.Options.{IsOption, AreOptions, joined_blocks};
ghost use Rattle.icmp6.specs.Blocks.{options_of, options_at, options_left};

use crate::iter::Options;

/// The options that `read` lent, one after the other.
pub fn options(bytes: &[u8]) -> Options<'_>
    requires { AreOptions bytes.now }
    /// `options` gives the options of a message that was read, each whole, in order, to the last.
    /// Needs: whole options, which is what `read` lends.
    ensures all { options_left result ≡ options_at 0 bytes.now }
    // Whichever blocks the bytes are, it is the options of these.
    /// See `all`.
    ensures each { (blocks : List (List ℕ)) → AllByRecursion IsOption blocks → bytes.now ≡ joined_blocks blocks → options_left result ≡ options_of 0 blocks }
{
    Options { bytes, at: 0 }
}
