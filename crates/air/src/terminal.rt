use crate::parked::Parked;
use calendar::course::Course;
use std::marker::PhantomData;

// An end that receives. The word of the awaited grant stands in the table, as far as it was read.
#[derive(Drop)]
pub struct Terminal<S, P> {
    end: Parked,
    chain: S,
    awaited: Option<Course>,
    word: [u8; 3200],
    kind: PhantomData<P>,
}

mod admission;
mod calls;
mod reading;
mod slot;
