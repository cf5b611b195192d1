/// The value of a result. Where it is refused, what is owned is given back, and the caller answers the refusal.
///
/// What is owned is given back by calls: where it goes out of scope, as at a `?`, the proof takes it apart. What is large has a call
/// of its own, which is proved where its type is: `or_give_up!(result, store.discard())`.
#[macro_export]
macro_rules! or_give_up {
    ($result:expr, $owned:ident.discard()) => {
        match $result {
            Ok(value) => value,
            Err(refusal) => {
                $owned.discard();
                return Err(refusal.into());
            }
        }
    };
    ($result:expr, $($owned:expr),+) => {
        match $result {
            Ok(value) => value,
            Err(refusal) => {
                $(drop($owned);)+
                return Err(refusal.into());
            }
        }
    };
}
