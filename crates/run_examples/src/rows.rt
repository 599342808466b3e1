//! Tables of cases as one text: a line is the kind of the case, what is to come of it and what it is of, with ` | ` between.

/// A case.
#[derive(Clone, Copy)]
pub(crate) struct Row<'a> {
    pub(crate) kind: &'a str,
    pub(crate) wanted: &'a str,
    pub(crate) input: &'a str,
}

/// The case of a line. A part that it lacks is empty.
pub(crate) fn row_of(line: &str) -> Row<'_> {
    let (kind, rest) = line.split_once(" | ").unwrap_or((line, ""));
    let (wanted, input) = rest.split_once(" | ").unwrap_or((rest, ""));
    Row {
        kind,
        wanted,
        input,
    }
}

/// The number that a text writes, and 0 where it writes none.
pub(crate) fn number(text: &str) -> u64 {
    text.parse().unwrap_or(0)
}
