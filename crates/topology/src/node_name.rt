//! The name of a node.
ghost use Rattle.std.specs.Prelude.{◌≡◌, ◌==◌, ◌&&◌, ◌-◌, ◌≤◌, ◌++◌, nat_eq, length, take, replicate};
ghost use Rattle.std.specs.Cmp.Lexicographic.{pointwise};
ghost use Rattle.topology.specs.declared.node_name.TheConstants.{NAME_LEN};

use td_base::Ip6;

/// How many bytes a name has at most.
pub const NAME_LEN: usize = 16;

/// A name: the first `len` of the bytes. The others are 0, so that a name's text has one form.
#[derive(Clone, Copy, Debug)]
pub struct Name {
    pub len: u8,
    pub bytes: [u8; NAME_LEN],
    pub ghost whole: { length bytes ≡ NAME_LEN },
    pub ghost short: { len ≤ NAME_LEN },
    pub ghost padded: { bytes ≡ take len bytes ++ replicate (NAME_LEN - len) 0 },
}

impl Name {
    ghost use Rattle.topology.specs.Names.{name_text};
    ghost use Rattle.std.specs.Prelude.{◌≢◌, ◌<◌, ◌⊎◌, [], IfSome, IfNone};

    /// The name of a text.
    pub fn new(text: &[u8]) -> Option<Name>
        /// A name is what was given, and is refused only where that is empty or longer than 16 bytes.
        /// Leaves open: which characters a name may have: that is the scenario reader's.
        ensures text { IfSome result (λ name. (name_text name ≡ text.now) × (text.now ≢ [])) }
        /// See `text`.
        ensures none { IfNone result ((text.now ≡ []) ⊎ (NAME_LEN < length text.now)) }
    {
        if text.is_empty() {
            return None;
        }
        if text.len() > NAME_LEN {
            return None;
        }
        let mut bytes = [0; NAME_LEN];
        bytes[..text.len()].copy_from_slice(text);
        Some(Name {
            len: text.len() as u8,
            bytes,
        })
    }

    /// The name's text.
    pub fn as_slice(&self) -> &[u8]
        /// See `Name::new`: `text`.
        ensures { result.now ≡ name_text self.now }
    {
        &self.bytes[..usize::from(self.len)]
    }
}

/// Whether all sixteen bytes and the length are the same. The bytes are compared as two numbers, as those of an address
/// are, and first: many names of a scenario have one length.
#[inline(always)]
#[tactic(auto, unfolding(td_base::specs::Ip6::same_ip6))]
fn have_same_bytes(a: &Name, b: &Name) -> bool
    ensures { result ≡ (pointwise nat_eq a.now.bytes b.now.bytes && (a.now.len == b.now.len)) }
{
    Ip6(a.bytes) == Ip6(b.bytes) && a.len == b.len
}

/// - `PartialEq`: `==` on names holds exactly of those with the same text.
impl PartialEq for Name {
    ghost use Rattle.std.specs.Cmp.{partial_equiv_from_equiv};
    ghost use Rattle.topology.specs.Names.{same_name, same_name_equiv};

    ghost eq = { same_name };

    ghost laws = { partial_equiv_from_equiv same_name_equiv };

    #[inline(always)]
    #[tactic(auto, using(crate::proofs::NameLemmas::by_all_bytes))]
    fn eq(&self, other: &Name) -> bool {
        have_same_bytes(self, other)
    }
}

/// - `Eq`: See `Name` as `PartialEq`.
impl Eq for Name {
    ghost use Rattle.topology.specs.Names.{same_name_equiv};

    ghost laws = { same_name_equiv };
}
