//! Records as texts.
use ordup_check::{Record, RecordReadFault, read_record};
use std::alloc::Global;
use test_fixtures::readers::PieceReader;

/// A record of 121 bytes.
pub(crate) const RECORD: &str = "\
ordup,1,a,2
object,1,x,0
object,2,y,10
limit,1,object:x,5
change,1,1,add:x:5
change,2,1,add:x:1
round,1,2,-
window,1,0,2
";

/// The record in a text.
pub(crate) fn record_in(alloc: Global, text: &str) -> Result<Record, RecordReadFault> {
    let mut input = PieceReader::new(text.as_bytes(), usize::MAX, usize::MAX);
    read_record(alloc, &mut input)
}
