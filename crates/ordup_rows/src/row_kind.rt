ghost use Rattle.std.specs.Prelude.{◌≡◌};
ghost use Rattle.ordup_rows.specs.RowKinds.{kind_of};

/// What a row after the first is about, by its first column.
#[derive(Clone, Copy, Debug, PartialEq, Eq)]
pub enum RowKind {
    /// `object`: an object and its initial value.
    Object,
    /// `member`: a member of a group.
    Member,
    /// `limit`: a limit of the site.
    Limit,
    /// `change`: a change of a decided update.
    Change,
    /// `report`: a place at whose decision the site had reported more than before.
    Report,
    /// `round`: a place at which the site was forced.
    Round,
    /// `window`: a span that is over a limit alone.
    Window,
}

impl RowKind {
    // promise: the first column of a row tells its kind, and the first row the version
    /// The kind of a row with this first column.
    pub fn parse(column: &[u8]) -> Option<RowKind>
        ensures { result ≡ kind_of column.now }
    {
        if column == b"object".as_slice() {
            Some(RowKind::Object)
        } else if column == b"member".as_slice() {
            Some(RowKind::Member)
        } else if column == b"limit".as_slice() {
            Some(RowKind::Limit)
        } else if column == b"change".as_slice() {
            Some(RowKind::Change)
        } else if column == b"report".as_slice() {
            Some(RowKind::Report)
        } else if column == b"round".as_slice() {
            Some(RowKind::Round)
        } else if column == b"window".as_slice() {
            Some(RowKind::Window)
        } else {
            None
        }
    }
}
