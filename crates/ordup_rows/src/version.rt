ghost use Rattle.std.specs.Prelude.{◌≡◌, ◌==◌};
ghost use Rattle.std.specs.List.{list_all};
ghost use Rattle.ordup_rows.specs.Versions.{version_for, version_of, version_text};

use ordup_limits::LimitEntry;

/// The version of the rows of a record. The second column of the first row has it.
#[derive(Clone, Copy, Debug, PartialEq, Eq)]
pub enum Version {
    /// `1`: the row of a limit has its amount. Each limit holds from place 1 on.
    First,
    /// `2`: the row of a limit has its amount, and the place from which it holds.
    Second,
}

impl Version {
    // promise: as RowKind::parse
    /// The version that a column spells.
    pub fn parse(column: &[u8]) -> Option<Version>
        ensures { result ≡ version_of column.now }
    {
        if column == b"1".as_slice() {
            Some(Version::First)
        } else if column == b"2".as_slice() {
            Some(Version::Second)
        } else {
            None
        }
    }

    // promise: as write_record version_for
    /// The version that a record with these limits is written in: the first where all of them hold from place 1 on.
    pub fn of(entries: &[LimitEntry]) -> Version
        ensures { result ≡ version_for entries.now }
    {
        if are_first(entries) {
            Version::First
        } else {
            Version::Second
        }
    }

    /// The column of the first row that spells the version.
    pub fn as_bytes(self) -> &'static [u8]
        ensures { result.now ≡ version_text self }
    {
        match self {
            Version::First => b"1",
            Version::Second => b"2",
        }
    }
}

/// Whether each limit holds from place 1 on.
fn are_first(entries: &[LimitEntry]) -> bool
    ensures { result ≡ list_all (λ e. e.place == 1) entries.now }
{
    entries.iter().all(|entry| entry.place == 1)
}
