ghost use Rattle.std.specs.Prelude.{◌≡◌, ◌⊎◌, None, Some, true, [], OnOk, not, length, map, nat_le, ◌==◌, ◌||◌, ◌&&◌, IfOk, IfErr, unsigned_abs};
ghost use Rattle.std.specs.Int.{is_negative};
ghost use Rattle.std.specs.List.{list_all};
ghost use Rattle.ordup_objects.specs.Sets.{AreKnown};
ghost use Rattle.ordup_shapes.specs.Changes.{change_of, changes_refusal, has_objects, has_op, op_of};

use ordup_objects::{Change, MessageSet, ObjectId, ObjectTable, Op, Refusal, or_give_up};
use std::alloc::{AllocError, Global};

/// The code of `take`, which is the greatest.
pub const TAKE: u32 = 5;

/// One change of a message set.
#[repr(C)]
#[derive(Clone, Copy)]
pub struct RawChange {
    pub object: u32,
    /// 0 `add`, 1 `set`, 2 `mul`, 3 `max`, 4 `min`, 5 `take`.
    pub op: u32,
    /// The number; or the object, of `take`.
    pub operand: i64,
}

impl RawChange {
    /// Whether the code is that of an operation.
    fn has_op(&self) -> bool
        ensures { result ≡ has_op self.now }
    {
        self.op <= TAKE
    }

    /// Whether a store may have its object, and the one that it reads.
    fn has_objects(&self) -> bool
        ensures { result ≡ has_objects self.now }
    {
        self.object <= u16::MAX as u32 && (self.op != TAKE || is_object(self.operand))
    }

    /// The change that it stands for, with its operation.
    fn change_with(&self, op: Op) -> Change
        requires objects { has_objects self.now ≡ true }
        ensures { result ≡ record (change_of self.now) { op = op } }
    {
        Change {
            object: ObjectId::new(self.object as u16),
            op,
        }
    }

    /// Its operation.
    fn operation(&self) -> Op
        requires op { has_op self.now ≡ true }
        requires objects { has_objects self.now ≡ true }
        ensures { result ≡ op_of self.now.op self.now.operand }
    {
        match self.op {
            0 => Op::Add(self.operand),
            1 => Op::Set(self.operand),
            2 => Op::Mul(self.operand),
            3 => Op::Max(self.operand),
            4 => Op::Min(self.operand),
            _ => Op::Take(ObjectId::new(self.operand.unsigned_abs() as u16)),
        }
    }
}

/// Whether a store may have an object of this number.
fn is_object(operand: i64) -> bool
    ensures { result ≡ (not (is_negative operand) && nat_le (unsigned_abs operand) 65535) }
{
    !operand.is_negative() && operand.unsigned_abs() <= u16::MAX as u64
}

// promise set known allowed refused: changes that cross from C are the message set that they stand for, or refused for the first reason
/// The message set that these changes stand for.
///
/// It is refused `Syntax` where a code is that of no operation, and else as `MessageSet::new` is; or `NoMemory`.
pub fn read_set(
    alloc: Global,
    objects: &ObjectTable,
    raws: &[RawChange],
) -> Result<MessageSet, Refusal>
    ensures set { IfOk result (λ set. set ≡ map change_of raws.now) }
    ensures known { IfOk result (λ set. AreKnown (length objects.now) set) }
    ensures allowed { IfOk result (λ _. changes_refusal (length objects.now) raws.now ≡ None) }
    ensures refused { IfErr result (λ e. (changes_refusal (length objects.now) raws.now ≡ Some e) ⊎ (e ≡ Refusal.NoMemory)) }
{
    if !have_ops(raws) {
        return Err(Refusal::Syntax);
    }
    if !have_objects(raws) {
        return Err(Refusal::UnknownObject);
    }
    if let [raw] = raws {
        return MessageSet::single(objects, raw.change_with(raw.operation()));
    }
    let changes = read_changes(alloc, raws)?;
    MessageSet::new(objects, changes)
}

fn have_ops(raws: &[RawChange]) -> bool
    ensures { result ≡ list_all has_op raws.now }
{
    raws.iter().all(RawChange::has_op)
}

fn have_objects(raws: &[RawChange]) -> bool
    ensures { result ≡ list_all has_objects raws.now }
{
    raws.iter().all(RawChange::has_objects)
}

/// The changes that these stand for.
fn read_changes(alloc: Global, raws: &[RawChange]) -> Result<Vec<Change>, AllocError>
    requires ops { list_all has_op raws.now ≡ true }
    requires objects { list_all has_objects raws.now ≡ true }
    ensures { IfOk result (λ changes. changes.items ≡ map change_of raws.now) }
{
    let mut changes = Vec::new(alloc);
    or_give_up!(add_changes(raws, &mut changes), changes);
    Ok(changes)
}

/// Adds the changes that these stand for to a list without any.
fn add_changes(raws: &[RawChange], changes: &mut Vec<Change>) -> Result<(), AllocError>
    requires ops { list_all has_op raws.now ≡ true }
    requires objects { list_all has_objects raws.now ≡ true }
    requires none { changes.old.items ≡ [] }
    ensures { OnOk result (changes.new.items ≡ map change_of raws.now) }
{
    for index in 0..raws.len() {
        let raw = &raws[index];
        // The prover takes a list of changes only where their operations are at hand.
        let op: Op = raw.operation();
        changes.push(raw.change_with(op))?;
    }
    Ok(())
}
