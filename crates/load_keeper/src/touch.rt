//! When a peer was last touched.
ghost use Rattle.std.specs.Prelude.{◌≡◌, find, IfSome, IfNone, None};
ghost use Rattle.load_keeper.specs.Touches.{IsTouchAt, is_young_touch, touches_peer};

use peer_list::LISTED_MS;
use td_base::{Ip6, Millis};

/// A peer that a node touched, and when it last did.
#[derive(Clone, Copy, Debug)]
pub struct Touch {
    pub who: Ip6,
    pub at: Millis,
}

/// Whether a touch is young enough that its peer is listed.
pub fn is_young(now: Millis, touch: Option<Touch>) -> bool
    ensures { result ≡ is_young_touch now.0 touch }
{
    match touch {
        None => false,
        Some(touch) => now.0.saturating_sub(touch.at.0) < LISTED_MS,
    }
}

/// The place of the touch of a peer, if there is one. The latest ones are looked at first: whoever was touched lately is
/// mostly touched again.
pub fn touch_place(touches: &[Touch], who: Ip6) -> Option<usize>
    ensures found { IfSome result (λ i. IsTouchAt who touches.now i) }
    ensures none { result ≡ None → find (touches_peer who) touches.now ≡ None }
{
    let mut place = touches.len();
    'touches: while place > 0 {
        place -= 1;
        if who == touches[place].who {
            return Some(place);
        }
    }
    None
}
