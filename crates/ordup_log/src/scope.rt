use crate::ids::GroupId;
use ordup_objects::ObjectId;

/// What a weight is taken on.
#[derive(Clone, Copy, Debug, PartialEq, Eq)]
pub enum Scope {
    /// One object: the distance that its value travels.
    Object(ObjectId),
    /// A group: the sum over its members.
    Group(GroupId),
    /// The sum over all objects.
    All,
    /// The number of updates: each weighs 1.
    Count,
}
