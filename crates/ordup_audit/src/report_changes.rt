ghost use Rattle.std.specs.Prelude.{◌≡◌, ◌<◌, Some, length, slice_get};
ghost use Rattle.ordup_audit.specs.RecordViews.{changes_in};

use crate::report_change::ReportChange;

/// The report changes of a record, as the one who lends them keeps them.
#[derive(Clone, Copy)]
pub enum ReportChanges<'a> {
    /// As an auditor keeps them.
    Changes(&'a [ReportChange]),
    /// As a primary keeps them: each place, with how many updates the site had reported at its decision.
    Steps(&'a [(u32, u32)]),
}

impl ReportChanges<'_> {
    // promise: as Record::view
    /// How many changes there are.
    pub fn len(self) -> usize
        ensures { result ≡ length (changes_in self.entry) }
    {
        match self {
            ReportChanges::Changes(changes) => changes.len(),
            ReportChanges::Steps(steps) => steps.len(),
        }
    }

    // promise: as Record::view
    /// The change with this index.
    pub fn at(self, index: usize) -> ReportChange
        requires { index < length (changes_in self) }
        ensures { slice_get (changes_in self.entry) index ≡ Some result }
    {
        match self {
            ReportChanges::Changes(changes) => changes[index],
            ReportChanges::Steps(steps) => {
                let (place, reported) = steps[index];
                ReportChange {
                    place: u64::from(place),
                    reported: u64::from(reported),
                }
            }
        }
    }
}
