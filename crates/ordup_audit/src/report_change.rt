ghost use Rattle.std.specs.Prelude.{◌≡◌, map};
ghost use Rattle.std.specs.List.Sorted.{IsStrictlyIncreasing};
ghost use Rattle.ordup_audit.specs.Records.{report_at};

/// What a site had reported at the decisions from this place on, until the next change.
#[derive(Clone, Copy, Debug, PartialEq, Eq)]
pub struct ReportChange {
    /// The place at whose decision it had reported more than at the decision before.
    pub place: u64,
    /// How many updates it had reported then.
    pub reported: u64,
}

/// What was reported at the decision of a place: by the last of the changes at or before it, 0 where there is none.
pub(crate) fn reported_at(changes: &[ReportChange], place: u64) -> u64
    requires { IsStrictlyIncreasing (map (λ c. c.place) changes.now) }
    ensures { result ≡ report_at changes.now place }
{
    let passed = changes.partition_point(|change| change.place <= place);
    if passed == 0 {
        return 0;
    }
    changes[passed - 1].reported
}
