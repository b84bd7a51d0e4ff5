//! The lines of `states` and `loads` on worked scenarios, computed from the definitions alone. They are compared with
//! texts that were written before any code: what nodes keep, and where packets went. No code stands here: each is a
//! theorem in proofs/, where both sides are the same once they are computed.
//!
//! | file of proofs/ | what is computed |
//! |---|---|
//! | `KeptFacts` | what each record concerned, with a relay, a held packet and restarts; behind a symmetric NAT; what is kept in the end |
//! | `ForgottenFacts` | a NAT that forgets a client; a client whose address changes; NATs behind another one |
//! | `FollowFacts` | packets that arrive, at once and late, that wait, and that are lost on their way |
//! | `EndedFacts` | packets that end with what was kept: with an address, with the last try, with a restart |
//! | `LostFacts` | a packet that stays lost, and one whose entry is delivered again; a packet that is answered twice |
//! | `BytesFacts` | the bytes of a packet that a host handed in, and of a reply |
#![tactic(auto)]
