//! The places whose output a datagram is.
ghost use Rattle.std.specs.Prelude.{◌≡◌, ◌++◌, [], ◌∷◌, slice_get, IfOk, OnOk};
ghost use Rattle.td_explain.specs.Outputs.{latest_of};
ghost use Rattle.td_explain.specs.Known.{places_listed};

use std::alloc::Global;
use td_base::NoMemory;

/// A place in four bytes. What has more records than that is longer than any capture that is read.
pub(crate) fn short(place: u64) -> Result<u32, NoMemory>
    ensures { IfOk result (λ short. short ≡ place) }
{
    match u32::try_from(place) {
        Ok(short) => Ok(short),
        Err(_) => Err(NoMemory),
    }
}

/// The places whose output a datagram is, in order. Of nearly every datagram there is one, which takes no memory of its
/// own.
#[derive(Drop)]
pub(crate) enum Places {
    Nowhere,
    Once(u32),
    Often(Box<Vec<u32>>),
}

/// Two places, in memory of their own.
fn both(alloc: Global, first: u32, second: u32) -> Result<Places, NoMemory>
    ensures { IfOk result (λ places. places_listed places ≡ first ∷ second ∷ []) }
{
    let mut places = Vec::new(alloc);
    places.push(first)?;
    places.push(second)?;
    Ok(Places::Often(Box::new(alloc, places)?))
}

impl Places {
    /// The place with this number among them, from 0.
    pub(crate) fn get(&self, turn: u64) -> Option<u64>
        ensures { result ≡ slice_get (places_listed self.now) turn }
    {
        match self {
            Places::Nowhere => None,
            Places::Once(place) => {
                if turn == 0 {
                    return Some(u64::from(*place));
                }
                None
            }
            Places::Often(places) => places.as_slice().get(turn as usize).copied().map(u64::from),
        }
    }

    /// The last one.
    pub(crate) fn last(&self) -> Option<u64>
        ensures { result ≡ latest_of (places_listed self.now) }
    {
        match self {
            Places::Nowhere => None,
            Places::Once(place) => Some(u64::from(*place)),
            Places::Often(places) => places.as_slice().last().copied().map(u64::from),
        }
    }

    /// Appends one.
    pub(crate) fn push(&mut self, alloc: Global, place: u32) -> Result<(), NoMemory>
        ensures { OnOk result (places_listed self.new ≡ places_listed self.old ++ place ∷ []) }
    {
        match self {
            Places::Nowhere => {
                *self = Places::Once(place);
                Ok(())
            }
            Places::Once(first) => {
                let first = *first;
                *self = both(alloc, first, place)?;
                Ok(())
            }
            Places::Often(places) => {
                places.push(place)?;
                Ok(())
            }
        }
    }
}
