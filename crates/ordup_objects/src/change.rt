ghost use Rattle.std.specs.Prelude.{◌≡◌, IfSome, option_map};
ghost use Rattle.ordup_objects.specs.Ops.{number_of, op_with, source_of};
ghost use Rattle.ordup_objects.specs.States.{State, value_at, result_of, IsInRange};

use crate::ids::ObjectId;

/// What a change by a number does to its object's value.
#[derive(Clone, Copy, Debug, PartialEq, Eq)]
pub enum NumberOp {
    /// `add`: the number is added to the value.
    Add,
    /// `set`: the value becomes the number.
    Set,
    /// `mul`: the value is multiplied by the number.
    Mul,
    /// `max`: the value becomes the greater of itself and the number.
    Max,
    /// `min`: the value becomes the lesser of itself and the number.
    Min,
}

impl NumberOp {
    // promise: as Op::number
    /// The operation of this kind by a number.
    pub fn with(self, number: i64) -> Op
        ensures { result ≡ op_with self number }
    {
        match self {
            NumberOp::Add => Op::Add(number),
            NumberOp::Set => Op::Set(number),
            NumberOp::Mul => Op::Mul(number),
            NumberOp::Max => Op::Max(number),
            NumberOp::Min => Op::Min(number),
        }
    }
}

/// What a change does to its object's value. Numbers lie from -1,000,000,000 to 1,000,000,000.
#[derive(Clone, Copy, Debug, PartialEq, Eq)]
pub enum Op {
    /// The value plus the number.
    Add(i64),
    /// The number.
    Set(i64),
    /// The value times the number.
    Mul(i64),
    /// The greater of the value and the number.
    Max(i64),
    /// The lesser of the value and the number.
    Min(i64),
    /// The value that an object, this one or another, had before the message set.
    Take(ObjectId),
}

impl Op {
    // promise: an operation answers its number and its source; a kind makes one
    /// The number of the operation, if it has one.
    pub fn number(self) -> Option<i64>
        ensures { result ≡ number_of self }
    {
        match self {
            Op::Add(n) => Some(n),
            Op::Set(n) => Some(n),
            Op::Mul(n) => Some(n),
            Op::Max(n) => Some(n),
            Op::Min(n) => Some(n),
            Op::Take(_) => None,
        }
    }

    // promise: as Op::number
    /// The object that the operation takes its value from, if there is one.
    pub fn source(self) -> Option<ObjectId>
        ensures { option_map (λ o. o) result ≡ source_of self }
    {
        match self {
            Op::Take(object) => Some(object),
            _ => None,
        }
    }

    // promise: an operation makes its result of a value
    /// The value after the operation. An operation with a source takes the value that the source had before the message set.
    pub fn result(self, value: i64, source: i64) -> i64
        requires value { IsInRange value }
        requires number { IfSome (number_of self) IsInRange }
        ensures { (v : State) → IfSome (source_of self) (λ y. value_at v y ≡ source) → result ≡ result_of v value self }
    {
        match self {
            Op::Add(n) => value + n,
            Op::Set(n) => n,
            Op::Mul(n) => value * n,
            Op::Max(n) => value.max(n),
            Op::Min(n) => value.min(n),
            Op::Take(_) => source,
        }
    }
}

/// A change of one object.
#[derive(Clone, Copy, Debug, PartialEq, Eq)]
pub struct Change {
    /// The object that changes.
    pub object: ObjectId,
    /// What the change does to its value.
    pub op: Op,
}
