use crate::ids::ObjectId;

/// What a change made of its object.
#[derive(Clone, Copy, Debug, PartialEq, Eq)]
pub struct Moved {
    /// The object that changed.
    pub object: ObjectId,
    /// Its value after the update.
    pub value: i32,
    /// How far its value moved.
    pub distance: u32,
}
