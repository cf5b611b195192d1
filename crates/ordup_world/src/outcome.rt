use crate::event::Answer;
use crate::world::World;
use std::alloc::{Allocator, Global};

/// What a list of events led to: the world, and the answer to each event in order.
#[derive(Drop)]
pub struct Run<A: Allocator + Copy = Global> {
    /// The world at the end.
    pub world: World<A>,
    /// The answers, one for each event.
    pub answers: Vec<Answer<A>, A>,
}
