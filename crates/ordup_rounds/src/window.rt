/// The places `from + 1` to `to` of a log.
///
/// A window shows a round of a site where its updates pass a limit of the site without any update outside it, and the site
/// had reported none of them at the decision of `to`: then no schedule keeps the limits without a round at one of its places.
#[derive(Clone, Copy, Debug, PartialEq, Eq)]
pub struct Window {
    /// The place before the first one of the window, 0 where it begins with the log.
    pub from: u64,
    /// The last place of the window, by its number.
    pub to: u64,
}
