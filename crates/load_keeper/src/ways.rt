//! What a fate does with loads.
ghost use Rattle.std.specs.Prelude.{◌≡◌, if◌then◌else◌};
ghost use Rattle.loads.specs.Loads.{answer_to, is_handing_in, releases_all};
ghost use Rattle.loads.specs.Sayings.{goes_by, arrives_if, way_by_fate, makes_reply, gives_up, is_changed_address, ends_holding, hands_over_held};
ghost use Rattle.legal.specs.Past.{is_restart};
ghost use Rattle.load_keeper.specs.Hearing.{load_that_goes_on, number_delivered};

use events::Verb;
use history::{Act, Mark};
use loads::{Load, Way};
use teredo_node::Fate;

/// It goes by a send or an entry, or ends where there is none.
fn goes_by(mark: Option<Mark>) -> Way
    ensures { result ≡ goes_by mark }
{
    match mark {
        None => Way::Ends,
        Some(mark) => Way::Goes(mark),
    }
}

/// It arrives where it is handed over, and else it ends.
pub fn arrives_if(handed: bool) -> Way
    ensures { result ≡ arrives_if handed }
{
    if handed { Way::Arrives } else { Way::Ends }
}

/// What becomes of the load that a record was given.
pub fn way_by_fate(fate: Fate, mark: Option<Mark>, handed: bool) -> Way
    ensures { result ≡ way_by_fate fate mark handed }
{
    match fate {
        Fate::Sent => goes_by(mark),
        Fate::SentCone => goes_by(mark),
        Fate::SentSix => goes_by(mark),
        Fate::Forward => goes_by(mark),
        Fate::ForwardOrigin => goes_by(mark),
        Fate::Six => goes_by(mark),
        Fate::FromClient => goes_by(mark),
        Fate::Queued => Way::Waits,
        Fate::HeldTest => Way::Held,
        Fate::Held => Way::Held,
        Fate::Kept => Way::Arrives,
        Fate::Echoed => Way::Arrives,
        _ => arrives_if(handed),
    }
}

/// The load of an answer: to a packet it is the reply to it, and to a reply it is none.
fn answer_to(load: Option<Load>) -> Option<Load>
    ensures { result ≡ answer_to load }
{
    match load {
        None => None,
        Some(Load::Packet(number)) => Some(Load::ReplyTo(number)),
        Some(Load::ReplyTo(_)) => None,
    }
}

/// What goes on of the load that a record was given, or of the reply to that.
pub fn load_that_goes_on(fate: Fate, load: Option<Load>) -> Option<Load>
    ensures { result ≡ load_that_goes_on fate load }
{
    match fate {
        Fate::Sent => load,
        Fate::SentCone => load,
        Fate::SentSix => load,
        Fate::Forward => load,
        Fate::ForwardOrigin => load,
        Fate::Six => load,
        Fate::FromClient => load,
        Fate::Echoed => answer_to(load),
        _ => None,
    }
}

/// The reply that a native host makes, by this fate.
pub fn reply_made(fate: Fate, load: Option<Load>) -> Option<Load>
    ensures { result ≡ (if makes_reply fate then answer_to load else None) }
{
    match fate {
        Fate::Echoed => answer_to(load),
        _ => None,
    }
}

/// How the reply goes.
pub fn reply_goes(mark: Option<Mark>) -> Way
    ensures { result ≡ goes_by mark }
{
    goes_by(mark)
}

/// Whether a host hands in a packet.
pub fn is_handing_in(act: Act) -> bool
    ensures { result ≡ is_handing_in act }
{
    match act {
        Act::Plain { verb: Verb::Host } => true,
        Act::Plain { verb: Verb::Echo } => true,
        Act::Plain { verb: Verb::Raw } => true,
        _ => false,
    }
}

/// Whether a node restarts.
pub fn is_restart(act: Act) -> bool
    ensures { result ≡ is_restart act }
{
    match act {
        Act::Plain {
            verb: Verb::Restart,
        } => true,
        _ => false,
    }
}

/// The number of the entry that an act delivers.
pub fn number_delivered(act: Act) -> Option<u32>
    ensures { result ≡ number_delivered act }
{
    match act {
        Act::Deliver { number } => Some(number),
        _ => None,
    }
}

/// Whether all that waits for the record's peer is sent.
pub fn releases_all(fate: Fate) -> bool
    ensures { result ≡ releases_all fate }
{
    match fate {
        Fate::Rule1 => true,
        Fate::Rule1Bubble => true,
        Fate::Rule2 => true,
        Fate::Rule3 => true,
        Fate::Rule3Bubble => true,
        Fate::FromClient => true,
        Fate::FromClientBubble => true,
        Fate::Unserved => true,
        _ => false,
    }
}

/// Whether what waits for the record's peer is dropped.
pub fn gives_up(fate: Fate) -> bool
    ensures { result ≡ gives_up fate }
{
    match fate {
        Fate::GiveUp => true,
        _ => false,
    }
}

/// Whether a client's address changed.
pub fn is_changed_address(fate: Fate) -> bool
    ensures { result ≡ is_changed_address fate }
{
    match fate {
        Fate::Changed => true,
        _ => false,
    }
}

/// Whether what is held of the record's peer ends.
pub fn ends_holding(fate: Fate) -> bool
    ensures { result ≡ ends_holding fate }
{
    match fate {
        Fate::Rule1 => true,
        Fate::Rule1Bubble => true,
        Fate::Rule2 => true,
        _ => false,
    }
}

/// Whether packets that were held are handed over.
pub fn hands_over_held(fate: Fate) -> bool
    ensures { result ≡ hands_over_held fate }
{
    match fate {
        Fate::Rule2 => true,
        _ => false,
    }
}
