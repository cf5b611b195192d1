ghost use Rattle.ordup_feed.specs.Laws.{TakenIsAPrefixOfPushed, KnownIsAtMostTold};

// promise: taken parcels are a prefix of those pushed; the primary knows at most what was told
/// A law: between any two steps what was taken is a prefix of what was pushed, and in order.
///
/// So a site that applies what it takes holds the serial result of a prefix of what was pushed.
pub fn taken_is_a_prefix_of_pushed()
    ensures { TakenIsAPrefixOfPushed }
{}

// promise: as taken_is_a_prefix_of_pushed
/// A law: between any two steps the sender knows at most the number that the taker told.
pub fn known_is_at_most_told()
    ensures { KnownIsAtMostTold }
{}
