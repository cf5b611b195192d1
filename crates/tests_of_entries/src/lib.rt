//! Tests of entries by their texts: what is read of each kind of step, what is written again, and which line of a text is told where it is
//! no entry. The texts are those of `node/internal/script` and of the transcripts in `node/internal/epoch/testdata`.
#![tactic(auto)]

#[cfg(test)]
mod kinds;
#[cfg(test)]
mod texts;
