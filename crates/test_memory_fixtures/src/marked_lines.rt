/// A line of a script with its answer and a mark: `+` where the line meets a growth, `-` where the call takes no memory, and `?` where
/// it may meet one.
#[derive(Clone, Copy)]
pub struct MarkedLine<'a> {
    pub mark: &'a str,
    pub line: &'a str,
    /// With the line feed.
    pub answer: &'a str,
}

impl<'a> MarkedLine<'a> {
    /// The line that stands behind a `>` of a transcript: the mark and the line, and below it the answer.
    pub fn parse(text: &'a str) -> Option<Self> {
        let (mark, rest) = text.split_once(' ')?;
        let (line, answer) = rest.split_once('\n')?;
        Some(MarkedLine { mark, line, answer })
    }
}
