//! A call of a node.
use crate::input::Input;
use td_base::Millis;

/// A call of a node: of which, by its number, when, and what comes to it.
#[derive(Clone, Copy, Debug)]
pub struct Call<'a> {
    pub node: u16,
    pub now: Millis,
    pub input: Input<'a>,
}
