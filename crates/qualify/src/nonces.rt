//! The nonces of a phase's solicitations.
ghost use Rattle.std.specs.Prelude.{◌≡◌, ◌==◌, ◌<◌, ◌≤◌, [], ◌∷◌, length};
ghost use Rattle.std.specs.List.{list_any};
ghost use Rattle.qualify.specs.declared.limits.TheConstants.{SOLICITATIONS_MAX};

use crate::limits::SOLICITATIONS_MAX;

/// The nonces of a phase's solicitations.
#[derive(Clone, Copy, Debug)]
pub struct Nonces {
    count: usize,
    // the first `count` are the nonces, the latest first
    slots: [u64; SOLICITATIONS_MAX],
    ghost few: { count ≤ SOLICITATIONS_MAX },
}

impl Nonces {
    ghost use Rattle.qualify.specs.State.{nonces_of};

    pub fn new() -> Nonces
        ensures { nonces_of result ≡ [] }
    {
        Nonces {
            count: 0,
            slots: [0; SOLICITATIONS_MAX],
        }
    }

    /// How many there are.
    pub fn len(&self) -> usize
        ensures count { result ≡ length (nonces_of self.now) }
        ensures most { result ≤ SOLICITATIONS_MAX }
    {
        self.count
    }

    pub fn contains(&self, nonce: u64) -> bool
        ensures { result ≡ list_any (λ m. m == nonce) (nonces_of self.now) }
    {
        self.slots[..self.count].iter().any(|m| *m == nonce)
    }

    /// These and a later one.
    pub fn with(self, nonce: u64) -> Nonces
        requires { length (nonces_of self) < SOLICITATIONS_MAX }
        ensures { nonces_of result ≡ nonce ∷ nonces_of self }
    {
        let [latest, before, _] = self.slots;
        Nonces {
            count: self.count + 1,
            slots: [nonce, latest, before],
        }
    }
}
