//! What a record says of a load.
use crate::load::Load;
use crate::way::Way;

/// A load, and what a record does with it.
#[derive(Clone, Copy, Debug)]
pub struct Saying {
    pub load: Load,
    pub way: Way,
}
