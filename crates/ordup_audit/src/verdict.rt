ghost use Rattle.std.specs.Prelude.{◌≡◌};

/// Why a record does not show that its rounds are the fewest.
#[derive(Clone, Copy, Debug, PartialEq, Eq)]
pub enum Reason {
    /// A result of an update is out of range.
    NotLegal,
    /// The span from the base of a decided place to the place passes a limit.
    LimitsBroken,
    /// The span of a window passes no limit.
    WindowLight,
    /// A window begins before the one before it ends.
    WindowsMeet,
    /// The site had reported an update of a window before the window's last place was decided.
    WindowBeforeReport,
    /// There are not as many windows as rounds.
    CountDiffers,
}

impl Reason {
    ghost use Rattle.ordup_audit.specs.Reasons.{reason_name};

    /// The name by which verdicts show the reason.
    pub fn name(self) -> &'static str
        ensures { result.now ≡ reason_name self }
    {
        match self {
            Reason::NotLegal => "NotLegal",
            Reason::LimitsBroken => "LimitsBroken",
            Reason::WindowLight => "WindowLight",
            Reason::WindowsMeet => "WindowsMeet",
            Reason::WindowBeforeReport => "WindowBeforeReport",
            Reason::CountDiffers => "CountDiffers",
        }
    }
}

/// What the check of a record answers.
#[derive(Clone, Copy, Debug, PartialEq, Eq)]
pub enum Verdict {
    /// The record is valid, and no schedule that keeps the limits has fewer rounds than this.
    Fewest(u64),
    /// The record is not valid.
    No {
        /// The row of the record, counted from 1, at which the reason is met first.
        row: u64,
        /// The first reason.
        reason: Reason,
    },
}
