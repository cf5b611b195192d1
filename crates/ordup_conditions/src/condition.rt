use ordup_objects::ObjectId;

/// What the value of an object must be. The number may be any `i64`.
#[derive(Clone, Copy, Debug, PartialEq, Eq)]
pub enum Bound {
    /// The number or greater.
    AtLeast(i64),
    /// The number or less.
    AtMost(i64),
}

/// A condition of an update: what the value of an object must be after it, whether the update changes the object or not.
#[derive(Clone, Copy, Debug, PartialEq, Eq)]
pub struct Condition {
    /// The object whose value is bounded.
    pub object: ObjectId,
    /// The bound of its value.
    pub bound: Bound,
}
