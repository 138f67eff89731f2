// A book whose places hold the orders as they came.
use crate::places::Places;
use std::marker::PhantomData;

pub mod calls;
mod soonest;

/// A book that adds each order behind the others, and looks through them from the first place on.
#[derive(Drop)]
pub struct Pile<'a, S> {
    places: Places<'a>,
    side: PhantomData<S>,
}
