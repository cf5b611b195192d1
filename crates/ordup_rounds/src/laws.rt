ghost use Rattle.ordup_rounds.specs.Joins.{CertificatesJoin, CertificatesPart, FewestRoundsJoin};
ghost use Rattle.ordup_rounds.specs.Fewest.{EachWindowHasARound, NoFewerRoundsThanWindows, RoundPlacesAreASchedule, CertifiedRoundsAreFewest, ForcedRoundsAreFewest};

// promise: a schedule that keeps the limits has a round in each of any disjoint windows
/// A law: a schedule that keeps the limits has a round at a place of each window.
pub fn each_window_has_a_round()
    ensures { EachWindowHasARound }
{}

// promise: as each_window_has_a_round
/// A law: a schedule that keeps the limits has at least as many rounds as any list of disjoint windows has windows.
pub fn no_fewer_rounds_than_windows()
    ensures { NoFewerRoundsThanWindows }
{}

// promise: round places are a schedule with full rounds just there
/// A law: an ascending list of decided places is a schedule, which has just these rounds, all of them full.
pub fn round_places_are_a_schedule()
    ensures { RoundPlacesAreASchedule }
{}

// promise
/// A law: no schedule that keeps the limits has fewer rounds than a certificate shows.
///
/// An auditor needs no more than this: nothing is asked of the reports, nor of how rounds and windows were found.
pub fn certified_rounds_are_fewest()
    ensures { CertifiedRoundsAreFewest }
{}

// promise: the rounds and windows of the rule are the fewest at each place (`AreFewest`)
/// A law: rounds just where the report is too old are the fewest, up to each decided place, and their windows show it.
pub fn forced_rounds_are_fewest()
    ensures { ForcedRoundsAreFewest }
{}

// promise: the certificates of two epochs join, and so do rounds that are the fewest at each place, if the tests join
/// A law: the certificates of two epochs, the second moved by the length of the first, are a certificate of both, where the test of the
/// whole is that of each epoch (`JoinsTests`).
///
/// The site has reported all of the first epoch where the next one begins.
pub fn certificates_join()
    ensures { CertificatesJoin }
{}

// promise: a certificate of two epochs parts into one for each, if the tests join
/// A law: a certificate of two epochs, the second moved by the length of the first, is a certificate of each, where its rounds and
/// windows are within it, and the test of the whole is that of each epoch (`JoinsTests`).
pub fn certificates_part()
    ensures { CertificatesPart }
{}

// promise: as certificates_join
/// A law: where the rounds of two epochs are the fewest, so are those of both, one after the other, where the test of the whole is that
/// of each epoch (`JoinsTests`), and the site has reported all of the first.
///
/// So they stay the fewest over any number of epochs.
pub fn fewest_rounds_join()
    ensures { FewestRoundsJoin }
{}
