ghost use Rattle.ordup_objects.specs.Joins.{LegalHistoriesJoin, SerialResultsJoin, ObjectSpansJoin};
ghost use Rattle.ordup_objects.specs.Marks.{LongerHistoriesKeepMarks};
ghost use Rattle.ordup_objects.specs.Serial.{LongerHistoriesKeepSerialResults, PrefixesOfLegalHistoriesAreLegal};
ghost use Rattle.ordup_objects.specs.Weights.{ValuesMoveByTheirWeights, LongerHistoriesKeepObjectSpans};

// promise: the laws of histories, of object spans and of marks
/// A law: a value moves by no more than the span between weighs.
///
/// This is the triangle inequality of whole numbers. It bounds how stale a lagging copy can be.
pub fn values_move_by_their_weights()
    ensures { ValuesMoveByTheirWeights }
{}

// promise: as values_move_by_their_weights
/// A law: updates that are added later leave the serial results as they were.
///
/// So the values of a site stay the serial result of a prefix of the log, however the log grows.
pub fn longer_histories_keep_serial_results()
    ensures { LongerHistoriesKeepSerialResults }
{}

// promise: as values_move_by_their_weights
/// A law: a prefix of a legal history is legal.
///
/// So what a site has applied of a log is a log by itself.
pub fn prefixes_of_legal_histories_are_legal()
    ensures { PrefixesOfLegalHistoriesAreLegal }
{}

// promise: as values_move_by_their_weights
/// A law: updates that are added later leave what a span weighs on an object as it was.
pub fn longer_histories_keep_object_spans()
    ensures { LongerHistoriesKeepObjectSpans }
{}

// promise: as values_move_by_their_weights
/// A law: the marks of a place of a history are those of the same place of each longer one.
///
/// So the reference of a query stays one, however the log grows.
pub fn longer_histories_keep_marks()
    ensures { LongerHistoriesKeepMarks }
{}

// promise: as values_move_by_their_weights
/// A law: a legal history that begins with the values in which another one ended, put after it, makes a legal history.
///
/// So the log of a store and that of its successor make one legal log.
pub fn legal_histories_join()
    ensures { LegalHistoriesJoin }
{}

// promise: as values_move_by_their_weights
/// A law: after the updates of the first of two such histories, the serial results are those of the next one.
pub fn serial_results_join()
    ensures { SerialResultsJoin }
{}

// promise: as values_move_by_their_weights
/// A law: what spans weigh on an object joins. Within the next history they weigh the same there, and a span across the join weighs
/// what its two parts weigh.
pub fn object_spans_join()
    ensures { ObjectSpansJoin }
{}
