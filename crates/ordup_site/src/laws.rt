ghost use Rattle.ordup_site.specs.Sites.{LongerHistoriesKeepWhatWasApplied};

// promise: a longer log keeps what a site applied
/// A law: what a site applied of a history, it applied of each longer one.
pub fn longer_histories_keep_what_was_applied()
    ensures { LongerHistoriesKeepWhatWasApplied }
{}
