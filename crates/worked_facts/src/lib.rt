//! Facts of whole histories, computed: of worked scenarios their premises and what follows, and for each premise a history
//! without it in which the conclusion is false. No code stands here: each is a theorem in proofs/. And numbers of lower crates,
//! which their specs take from the code's constants.
//!
//! | file of proofs/ | what is computed |
//! |---|---|
//! | `VerdictFacts` | clients behind each kind of NAT that nothing disturbs, and what they make of it |
//! | `DisturbedFacts` | for each premise of a right verdict a history without it, in which a client's verdict is wrong |
//! | `WayFacts` | clients behind two and three NATs: the premises of a right verdict are met, or one isn't and the verdict is wrong |
//! | `OriginFacts` | honest histories: whence a packet came that a host is handed, and that a client's NAT holds what its address embeds |
//! | `DishonestFacts` | somebody says that he is a server, and a client's NAT doesn't hold what its address embeds |
//! | `OriginViews` | the words of these |
//! | `StormFacts` | what can follow and what does; more deliveries than that with a tick between, or an entry delivered again |
//! | `EasedFacts` | from a packet for a relay alone nine deliveries may follow, and do |
//! | `FirstPacketFacts` | a first packet that arrives, and for premises of its arrival a history without one, in which it doesn't |
//! | `NativeFacts` | first packets of a native host that arrive after nine deliveries and after six, and that their premise is met |
//! | `UncarriedFacts` | for what client, host and relay must not know of one another a history without it, in which one doesn't arrive |
//! | `ToNativeFacts` | first packets to a native host that arrive with the ninth delivery and with the sixth, and one that it answers |
//! | `UnbroughtFacts` | for what the theorem wants of the three, of such a packet and of what follows a history without it, in which one doesn't |
//! | `ReachFacts` | the words on each two hosts of a laboratory: with a NAT behind another one and without, and after its relay was restarted |
//! | `FinerFacts` | the finer words of the same laboratory |
//! | `WithinFacts` | packets between a client and a native host that come by the second delivery or the fifth, as their word says |
//! | `ShutFacts` | a packet of a native host that is trusted elsewhere, and one for a client that may not try yet: neither comes |
//! | `MovedFacts` | a packet of a client that got another port at its outer NAT than its address says: it doesn't come |
//! | `OtherwiseFacts` | packets that come though the word is shut: the test that a record drew itself, and one that the client holds |
//! | `OutsideFacts` | whence packets from outside Teredo came: at once, and late, where the same bytes came twice |
//! | `ExplainFacts` | what the server's table makes of a capture whose answer is licensed, and of one whose answer differs in a field |
//! | `NumberFacts` | the numbers of lower crates that `specs/Numbers.antt` has, from the standards, or our choice |
#![tactic(auto)]
