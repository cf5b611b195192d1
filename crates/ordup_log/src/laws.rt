ghost use Rattle.ordup_log.specs.Joins.{SpansJoin};
ghost use Rattle.ordup_log.specs.Spans.{InnerSpansWeighLess, LongerHistoriesKeepSpans, ValuesMoveBySpans};

// promise: the laws of spans, on every scope
/// A law: a span inside another weighs no more than it, on every scope.
pub fn inner_spans_weigh_less()
    ensures { InnerSpansWeighLess }
{}

// promise: as inner_spans_weigh_less
/// A law: updates that are added later leave what a span weighs as it was, on every scope.
pub fn longer_histories_keep_spans()
    ensures { LongerHistoriesKeepSpans }
{}

// promise: as inner_spans_weigh_less
/// A law: a value moves by no more than the span between weighs on its object.
pub fn values_move_by_spans()
    ensures { ValuesMoveBySpans }
{}

// promise: as inner_spans_weigh_less
/// A law: what spans weigh joins, on every scope, where the next history begins with the values in which the first one ends. Within
/// the next one they weigh the same there, and a span across the join weighs what its two parts weigh.
pub fn spans_join()
    ensures { SpansJoin }
{}
