//! What a node keeps of its peers, as far as loads go.
ghost use Rattle.std.specs.Prelude.{◌≡◌, true};
ghost use Rattle.load_keeper.specs.Touches.{are_apart};

use crate::effect::Effect;
use crate::kept_load::KeptLoad;
use crate::touch::{Touch, is_young, touch_place};
use loads::Load;
use std::alloc::Global;
use td_base::{Ep, Ip6, Millis, NoMemory};

/// Whom a node touched, and what it keeps of its peers.
#[derive(Drop)]
pub struct NodeLoads {
    /// The latest touch of each peer, the latest of all at the end.
    pub touches: Vec<Touch>,
    /// In the order in which it came. What is kept of a peer that isn't listed counts no longer.
    pub kept: Vec<KeptLoad>,
    ghost apart: { are_apart touches.items ≡ true },
}

impl NodeLoads {
    ghost use Rattle.std.specs.Prelude.{filter, find, not, if◌then◌else◌, OnOk};
    ghost use Rattle.load_keeper.specs.Touches.{touches_peer};
    ghost use Rattle.load_keeper.specs.Kept.{kept_of_others, lists_peer, with_touch, outlasts_giving_up};
    ghost use Rattle.load_keeper.specs.Kept.{node_kept, nothing_kept, after_touch, after_keeping, after_effect};

    /// A node that keeps nothing.
    pub fn new(alloc: Global) -> NodeLoads
        ensures { node_kept result ≡ nothing_kept }
    {
        NodeLoads {
            touches: Vec::new(alloc),
            kept: Vec::new(alloc),
        }
    }

    /// The touch of a peer, if there is one.
    fn find_touch(&self, who: Ip6) -> Option<Touch>
        ensures { result ≡ find (touches_peer who) self.now.touches.items }
    {
        match touch_place(&self.touches, who) {
            None => None,
            Some(place) => Some(self.touches[place]),
        }
    }

    /// Whether a peer is listed.
    pub fn lists(&self, now: Millis, who: Ip6) -> bool
        ensures { result ≡ lists_peer self.now.touches.items now.0 who }
    {
        is_young(now, self.find_touch(who))
    }

    /// Keeps nothing of a peer any more.
    fn drop_kept(&mut self, who: Ip6)
        ensures kept { self.new.kept.items ≡ kept_of_others who self.old.kept.items }
        ensures touches { self.new.touches.items ≡ self.old.touches.items }
    {
        self.kept.retain(|kept| !(who == kept.who));
    }

    /// Keeps what is held of a peer, and nothing that waits for it.
    fn drop_waiting(&mut self, who: Ip6)
        ensures kept { self.new.kept.items ≡ filter (outlasts_giving_up who) self.old.kept.items }
        ensures touches { self.new.touches.items ≡ self.old.touches.items }
    {
        self.kept.retain(|kept| if who == kept.who {
            kept.from.is_some()
        } else {
            true
        });
    }

    /// Keeps nothing any more of a peer that isn't listed.
    fn settle(&mut self, now: Millis, who: Ip6)
        ensures kept { self.new.kept.items ≡ (if lists_peer self.old.touches.items now.0 who then self.old.kept.items else kept_of_others who self.old.kept.items) }
        ensures touches { self.new.touches.items ≡ self.old.touches.items }
    {
        if self.kept.is_empty() {
            return;
        }
        if self.lists(now, who) {
            return;
        }
        self.drop_kept(who);
    }

    /// Forgets when a peer was touched. Each touch is of another peer, so that there is one at most.
    fn drop_touch(&mut self, who: Ip6)
        ensures touches { self.new.touches.items ≡ filter (λ t. not (touches_peer who t)) self.old.touches.items }
        ensures kept { self.new.kept.items ≡ self.old.kept.items }
    {
        let Some(place) = touch_place(&self.touches, who) else {
            return;
        };
        self.touches.remove(place);
    }

    /// Remembers that a peer was touched.
    fn note_touch(&mut self, now: Millis, who: Ip6) -> Result<(), NoMemory>
        ensures touches { OnOk result (self.new.touches.items ≡ with_touch who now.0 self.old.touches.items) }
        ensures kept { self.new.kept.items ≡ self.old.kept.items }
    {
        self.drop_touch(who);
        self.touches.push(Touch { who, at: now })?;
        Ok(())
    }

    /// A peer is touched.
    fn touch(&mut self, now: Millis, who: Ip6) -> Result<(), NoMemory>
        ensures { OnOk result (node_kept self.new ≡ after_touch who now.0 (node_kept self.old)) }
    {
        self.settle(now, who);
        self.note_touch(now, who)
    }

    /// Keeps one thing more.
    fn keep(&mut self, kept: KeptLoad) -> Result<(), NoMemory>
        ensures { OnOk result (node_kept self.new ≡ after_keeping kept (node_kept self.old)) }
    {
        self.kept.push(kept)?;
        Ok(())
    }

    /// Brings what is kept to what it is after something that means this for a peer; `load` is that of the packet, and `from`
    /// where it came from, if from somewhere.
    pub fn note(
        &mut self,
        effect: Effect,
        who: Ip6,
        now: Millis,
        from: Option<Ep>,
        load: Option<Load>,
    ) -> Result<(), NoMemory>
        ensures { OnOk result (node_kept self.new ≡ after_effect effect who now.0 from load (node_kept self.old)) }
    {
        match effect {
            Effect::Nothing => Ok(()),
            Effect::Touches => self.touch(now, who),
            Effect::Queues => {
                self.touch(now, who)?;
                self.keep(KeptLoad {
                    who,
                    from: None,
                    load,
                })
            }
            Effect::Hears => {
                self.touch(now, who)?;
                self.drop_kept(who);
                Ok(())
            }
            Effect::Tests => {
                self.touch(now, who)?;
                self.keep(KeptLoad { who, from, load })
            }
            Effect::Holds => self.keep(KeptLoad { who, from, load }),
            Effect::GivesUp => {
                self.drop_waiting(who);
                Ok(())
            }
        }
    }
}
