//! Regular expressions: what is built, and what is found in texts. The parts of an input stand between tabs.

use case_rows::bytes_of;
use pattern_set::{BuildError, Filled, Matcher, Patterns, Span};
use std::alloc::Global;
use std::convert::AsStr;
use zbx_types::{Many, OutOfMemory, Text};

/// The two parts of an input between which a tab stands, the second empty where none does.
fn both(input: &str) -> (&str, &str) {
    input.split_once('\t').unwrap_or((input, ""))
}

/// The texts of an input.
fn texts_of(alloc: Global, input: &str) -> Result<Many<Text>, OutOfMemory> {
    let mut made = Many::new(alloc);
    for text in input.split('\t') {
        made.push(Text::of(alloc, text)?)?;
    }
    Ok(made)
}

/// Builds texts.
fn built(alloc: Global, texts: &Many<Text>) -> Result<Patterns, BuildError> {
    if texts.len() as u64 >= 1 << 32 {
        return Err(BuildError::OutOfMemory);
    }
    Patterns::build(alloc, texts)
}

/// The patterns `b` and another one; none where they aren't built.
fn pair(alloc: Global, pattern: &str) -> Result<Option<Patterns>, OutOfMemory> {
    let mut texts = Many::new(alloc);
    texts.push(Text::of(alloc, "b")?)?;
    texts.push(Text::of(alloc, pattern)?)?;
    Ok(built(alloc, &texts).ok())
}

/// What isn't built.
fn not_built(alloc: Global) -> Result<String, OutOfMemory> {
    Ok(String::from_str(alloc, "not built")?)
}

/// Why texts aren't built, or `built`.
fn refusal(alloc: Global, input: &str) -> Result<String, OutOfMemory> {
    let texts = texts_of(alloc, input)?;
    match built(alloc, &texts) {
        Ok(patterns) => {
            drop(patterns);
            Ok(String::from_str(alloc, "built")?)
        }
        Err(BuildError::OutOfMemory) => Err(OutOfMemory),
        Err(error) => Ok(format!(in alloc; "{error}")?),
    }
}

/// Where a group's span begins and ends, or `_`.
fn put_span(alloc: Global, out: &mut String, span: &Span) -> Result<(), OutOfMemory> {
    if span.there {
        let told = format!(in alloc; "{}-{} ", span.from, span.to)?;
        out.push_str(told.as_str())?;
    } else {
        out.push_str("_ ")?;
    }
    Ok(())
}

/// The spans of groups, or `none`.
fn shown(alloc: Global, spans: &Option<Many<Span>>) -> Result<String, OutOfMemory> {
    let mut out = String::new(alloc);
    match spans {
        Some(spans) => {
            for span in spans.as_slice() {
                put_span(alloc, &mut out, span)?;
            }
        }
        None => out.push_str("none")?,
    }
    Ok(out)
}

/// The text that an input writes, with `%HH` for some bytes.
fn decoded(alloc: Global, input: &str) -> Result<Text, OutOfMemory> {
    let bytes = bytes_of(alloc, input)?;
    Ok(Text::from_utf8(alloc, bytes.as_slice())?.unwrap_or(Text::new(alloc)))
}

/// What the second of two patterns spans in a text: the pattern, then the text.
fn spans(alloc: Global, input: &str) -> Result<String, OutOfMemory> {
    let (pattern, text) = both(input);
    let text = decoded(alloc, text)?;
    match pair(alloc, pattern)? {
        Some(patterns) => {
            let spans = patterns.spans(alloc, 2, text.as_str());
            drop(patterns);
            shown(alloc, &spans?)
        }
        None => not_built(alloc),
    }
}

/// The place at which a text is found: the text, then the patterns.
fn place(alloc: Global, input: &str) -> Result<String, OutOfMemory> {
    let (text, rest) = both(input);
    let text = Text::of(alloc, text)?;
    let texts = texts_of(alloc, rest)?;
    match built(alloc, &texts) {
        Ok(patterns) => {
            let place = patterns.find(&text);
            drop(patterns);
            Ok(format!(in alloc; "{place}")?)
        }
        Err(error) => {
            drop(error);
            not_built(alloc)
        }
    }
}

/// Whether the pattern at a place matches, spans and fills something: of the patterns `b` and `a`.
fn at_place(alloc: Global, patterns: &Patterns, place: u32) -> Result<String, OutOfMemory> {
    let matches = patterns.matches(alloc, place, "ba")?;
    let spans = patterns.spans(alloc, place, "ba")?.is_some();
    let filled = patterns.filled(alloc, place, "ba", "")?.is_some();
    Ok(format!(in alloc; "{matches} {spans} {filled}")?)
}

/// The same of one pattern.
fn of_one(alloc: Global, input: &str) -> Result<String, OutOfMemory> {
    let texts = texts_of(alloc, "a")?;
    match built(alloc, &texts) {
        Ok(patterns) => {
            let made = at_place(alloc, &patterns, input.parse().unwrap_or(0));
            drop(patterns);
            made
        }
        Err(error) => {
            drop(error);
            not_built(alloc)
        }
    }
}

/// What a filled output comes to, in words or as the text that was made.
fn told(alloc: Global, filled: Filled) -> Result<String, OutOfMemory> {
    Ok(match filled {
        Filled::Unmatched => String::from_str(alloc, "unmatched")?,
        Filled::Made(filled) => filled.into_string(),
        Filled::TooLong => String::from_str(alloc, "too long")?,
    })
}

/// What the output `\0-\1` of the pattern `(é+)` comes to: the text, then the limit.
fn within(alloc: Global, input: &str) -> Result<String, OutOfMemory> {
    let (text, limit) = both(input);
    let limit = limit.parse().unwrap_or(0);
    match pair(alloc, "(é+)")? {
        Some(patterns) => {
            let filled = patterns.filled_within(alloc, 2, text, "\\0-\\1", limit);
            drop(patterns);
            told(alloc, filled?)
        }
        None => not_built(alloc),
    }
}

/// The text that was made, or `none`.
fn made(alloc: Global, filled: Option<Text>) -> Result<String, OutOfMemory> {
    match filled {
        Some(filled) => Ok(filled.into_string()),
        None => Ok(String::from_str(alloc, "none")?),
    }
}

/// An output that is filled: the pattern, then the text, then the output.
fn filled(alloc: Global, input: &str) -> Result<String, OutOfMemory> {
    let (pattern, rest) = both(input);
    let (text, output) = both(rest);
    match pair(alloc, pattern)? {
        Some(patterns) => {
            let filled = patterns.filled(alloc, 2, text, output);
            drop(patterns);
            made(alloc, filled?)
        }
        None => not_built(alloc),
    }
}

/// In which texts a matcher finds its pattern, 1 or 0 for each.
fn bits(alloc: Global, matcher: &mut Matcher<'_>, texts: &str) -> Result<String, OutOfMemory> {
    let mut out = String::new(alloc);
    for text in texts.split('|') {
        out.push_str(if matcher.matches(text) { "1" } else { "0" })?;
    }
    Ok(out)
}

/// The same of one matcher of the second of two patterns.
fn found(alloc: Global, patterns: &Patterns, texts: &str) -> Result<String, OutOfMemory> {
    match patterns.matcher(alloc, 2)? {
        Some(mut matcher) => {
            let made = bits(alloc, &mut matcher, texts);
            drop(matcher);
            made
        }
        None => Ok(String::new(alloc)),
    }
}

/// The same of a pattern, and then of the texts between bars.
fn matched(alloc: Global, input: &str) -> Result<String, OutOfMemory> {
    let (pattern, texts) = both(input);
    match pair(alloc, pattern)? {
        Some(patterns) => {
            let made = found(alloc, &patterns, texts);
            drop(patterns);
            made
        }
        None => not_built(alloc),
    }
}

/// What a case of patterns comes to.
pub(crate) fn answer(
    alloc: Global,
    kind: &str,
    input: &str,
) -> Result<Option<String>, OutOfMemory> {
    match kind {
        "spans" => Ok(Some(spans(alloc, input)?)),
        "patterns_built" => Ok(Some(refusal(alloc, input)?)),
        "pattern_place" => Ok(Some(place(alloc, input)?)),
        "pattern_at" => Ok(Some(of_one(alloc, input)?)),
        "filled" => Ok(Some(filled(alloc, input)?)),
        "filled_within" => Ok(Some(within(alloc, input)?)),
        "matcher" => Ok(Some(matched(alloc, input)?)),
        _ => Ok(None),
    }
}
