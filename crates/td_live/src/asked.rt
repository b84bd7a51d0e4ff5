//! What is asked of a session.
ghost use Rattle.std.specs.Prelude.{◌≡◌, ◌<◌, ℕ, []};
ghost use Rattle.td_base.specs.declared.millis.TheConstants.{CLOCK_END_MS};
ghost use Rattle.client_core.specs.Client.{IsCallable};
ghost use Rattle.client_rules.specs.Journals.{journal_since};
ghost use Rattle.td_live.specs.Asked.{live_client, live_seed};
ghost use Rattle.td_live.specs.Half.{IsAt};

use client_core::Client;
use qualify::Settings;
use rand_chacha::ChaCha20Rng;
use rand_core::SeedableRng;
use std::alloc::Global;
use td_base::{Ep, Ip4, Millis, Policy, put64};

/// The shortest time between two refreshes of the client, in milliseconds (RFC 4380, section 5.2.5).
pub const REFRESH_LOW_MS: u32 = 22_500;

/// The longest time between two refreshes of the client, in milliseconds (RFC 4380, section 5.2.5).
pub const REFRESH_HIGH_MS: u32 = 30_000;

/// The number of the node of a laboratory whose random words the client has.
pub const STREAM_NUMBER: u64 = 0;

// How many bytes the seed of a stream of random words has.
const STREAM_SEED: usize = 32;

/// What is asked of a session: the address of the client's socket, the server's two, the seed of the client's random
/// words, and the most turns.
#[derive(Clone, Copy, Debug)]
pub struct Asked {
    pub inside: Ip4,
    pub primary: Ip4,
    pub secondary: Ip4,
    pub seed: u64,
    pub turns: u64,
}

// The seed of the client's random words.
fn stream_seed(seed: u64) -> [u8; STREAM_SEED]
    ensures { result ≡ live_seed seed }
{
    let mut bytes = [0; STREAM_SEED];
    put64(&mut bytes, 0, seed);
    put64(&mut bytes, 8, STREAM_NUMBER);
    bytes
}

/// The client, which starts now.
pub(crate) fn client_at(alloc: Global, asked: Asked, at: Ep, now: Millis) -> Client
    requires early { now.0 < CLOCK_END_MS }
    ensures at { IsAt (live_client asked at) result (journal_since now.0 []) }
    ensures callable { IsCallable result now.0 }
{
    let settings = Settings {
        inside: at,
        primary: asked.primary,
        secondary: asked.secondary,
        policy: Policy::Loopback,
        low: REFRESH_LOW_MS,
        high: REFRESH_HIGH_MS,
        random: false,
        cone_try: true,
    };
    let rng = ChaCha20Rng::from_seed(stream_seed(asked.seed));
    Client::new(alloc, settings, rng, now)
}
