//! The words that the events are made of.
ghost use Rattle.std.specs.Prelude.{◌≡◌, ◌<◌, ◌^◌};
ghost use Rattle.legal.specs.Lab.{stream_key};
ghost use Rattle.rand_chacha.specs.ChaCha.{of_seed};
ghost use Rattle.generator.specs.declared.words.TheConstants.{EVENTS_STREAM};

use rand_chacha::ChaCha20Rng;
use rand_core::SeedableRng;
use td_base::put64;

/// The number of the node that the words would be drawn for. No scenario has a node of this number.
pub const EVENTS_STREAM: u64 = 18_446_744_073_709_551_615;

/// The key of the stream: the seed, the number, and sixteen zeros.
fn events_key(seed: u64) -> [u8; 32]
    ensures { result ≡ stream_key seed EVENTS_STREAM }
{
    let mut key = [0; 32];
    put64(&mut key, 0, seed);
    put64(&mut key, 8, EVENTS_STREAM);
    key
}

/// The generator of the words, at the first of them.
pub(crate) fn events_rng(seed: u64) -> ChaCha20Rng
    ensures { result ≡ of_seed (stream_key seed EVENTS_STREAM) }
{
    ChaCha20Rng::from_seed(events_key(seed))
}
