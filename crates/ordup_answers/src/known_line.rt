ghost use Rattle.std.specs.Prelude.{◌≡◌, ◌≤◌, true, length, take};

use ordup_grammar::{SiteAction, is_kept_line};
use ordup_objects::SiteId;
use ordup_objects::sizes::MOST_NAME_BYTES;

/// The fewest bytes of a line that is kept: those of `send` and a site of one letter.
pub(crate) const FEWEST_KEPT_BYTES: usize = 6;
/// The most bytes of a line that is kept. `report` and a site have at most 23.
pub(crate) const MOST_KEPT_BYTES: usize = 24;

/// A line of a keyword and a site that came before, and what it asks for.
#[derive(Clone, Copy)]
pub(crate) struct KnownLine {
    /// Its bytes, and then zeros.
    bytes: [u8; MOST_KEPT_BYTES],
    len: usize,
    /// The name of the site, and then zeros.
    name: [u8; MOST_NAME_BYTES],
    name_len: usize,
    pub(crate) action: SiteAction,
    pub(crate) site: SiteId,
    ghost kept: { (6 ≤ len) × (len ≤ 24) × (name_len ≤ 16) },
}

impl KnownLine {
    /// What is kept of a line.
    pub(crate) fn new(line: &[u8], name: &[u8], action: SiteAction, site: SiteId) -> Self
        requires { (6 ≤ length line.now) × (length line.now ≤ 24) × (length name.now ≤ 16) }
        ensures line { take result.len result.bytes ≡ line.now }
        ensures name { take result.name_len result.name ≡ name.now }
        ensures action { result.action ≡ action }
        ensures site { result.site ≡ site }
    {
        let mut bytes = [0; MOST_KEPT_BYTES];
        bytes[..line.len()].copy_from_slice(line);
        let mut padded = [0; MOST_NAME_BYTES];
        padded[..name.len()].copy_from_slice(name);
        KnownLine {
            bytes,
            len: line.len(),
            name: padded,
            name_len: name.len(),
            action,
            site,
        }
    }

    /// Whether these bytes are the line.
    #[inline(always)]
    pub(crate) fn is(&self, line: &[u8]) -> bool
        ensures same { result ≡ true → line.now ≡ take self.now.len self.now.bytes }
        ensures found { line.now ≡ take self.now.len self.now.bytes → result ≡ true }
    {
        is_kept_line(line, &self.bytes[..self.len])
    }

    /// The name of the site.
    #[inline(always)]
    pub(crate) fn name(&self) -> &[u8]
        ensures name { result.now ≡ take self.now.name_len self.now.name }
        ensures len { length result.now ≡ self.now.name_len }
    {
        &self.name[..self.name_len]
    }

    /// The name of the site, and zeros behind it.
    #[inline(always)]
    pub(crate) fn padded_name(&self) -> &[u8; MOST_NAME_BYTES]
        ensures name { result.now ≡ self.now.name }
        ensures len { self.now.name_len ≤ 16 }
    {
        &self.name
    }
}
