//! What texts say as paths, and where they stop being paths.

use case_rows::bytes_of;
use json_path::{
    Comparison, Condition, Function, LONGEST_PATH, Literal, Path, PathError, Selector, read,
};
use std::alloc::Global;
use std::convert::AsStr;
use zbx_types::{Many, OutOfMemory, Text};

/// Names, each in `<` and `>`.
fn show_names(out: &mut Text, names: &Many<Text>) -> Result<(), OutOfMemory> {
    for name in names.as_slice() {
        out.push_str("<")?;
        out.push_str(name.as_str())?;
        out.push_str(">")?;
    }
    Ok(())
}

/// An integer behind `#`.
fn show_integer(alloc: Global, out: &mut Text, integer: i64) -> Result<(), OutOfMemory> {
    let text = format!(in alloc; "#{integer}")?;
    out.push_str(text.as_str())
}

/// A bound of a slice, or nothing.
fn show_bound(alloc: Global, out: &mut Text, bound: Option<i64>) -> Result<(), OutOfMemory> {
    match bound {
        Some(integer) => show_integer(alloc, out, integer),
        None => Ok(()),
    }
}

/// The sign of a comparison.
fn symbol(op: Comparison) -> &'static str {
    match op {
        Comparison::Eq => "==",
        Comparison::Ne => "!=",
        Comparison::Le => "<=",
        Comparison::Ge => ">=",
        Comparison::Lt => "<",
        Comparison::Gt => ">",
    }
}

/// A condition behind `?`, a quoted text behind `'`.
fn show_condition(out: &mut Text, condition: &Condition) -> Result<(), OutOfMemory> {
    out.push_str("?")?;
    show_names(out, &condition.names)?;
    out.push_str(symbol(condition.op))?;
    match &condition.literal {
        Literal::Words(words) => {
            out.push_str("'")?;
            out.push_str(words.as_str())
        }
        Literal::Number(number) => out.push_str(number.as_str()),
    }
}

/// What a segment selects.
fn show_selector(alloc: Global, out: &mut Text, selector: &Selector) -> Result<(), OutOfMemory> {
    match selector {
        Selector::Names(names) => show_names(out, names),
        Selector::Indexes(integers) => {
            for integer in integers.as_slice() {
                show_integer(alloc, out, *integer)?;
            }
            Ok(())
        }
        Selector::Slice { from, to } => {
            show_bound(alloc, out, *from)?;
            out.push_str(":")?;
            show_bound(alloc, out, *to)
        }
        Selector::All => out.push_str("*"),
        Selector::Where(condition) => show_condition(out, condition),
    }
}

/// A function behind `!`.
fn function_name(function: Function) -> &'static str {
    match function {
        Function::Length => "!length",
        Function::First => "!first",
        Function::Min => "!min",
        Function::Max => "!max",
        Function::Sum => "!sum",
        Function::Avg => "!avg",
    }
}

/// A path in short: each segment behind `/`, or `//` where it is deep.
fn show_path(alloc: Global, path: &Path) -> Result<String, OutOfMemory> {
    let mut out = Text::of(alloc, "$")?;
    for segment in path.segments.as_slice() {
        out.push_str(if segment.deep { "//" } else { "/" })?;
        show_selector(alloc, &mut out, &segment.selector)?;
    }
    match path.function {
        Some(function) => out.push_str(function_name(function))?,
        None => {}
    }
    Ok(out.into_string())
}

/// The path of a text in short, or the place where it stops being one.
fn shown(alloc: Global, text: &[u8]) -> Result<String, OutOfMemory> {
    if text.len() > LONGEST_PATH as usize {
        return Ok(String::from_str(alloc, "out of range")?);
    }
    match read(alloc, text) {
        Ok(path) => show_path(alloc, &path),
        Err(PathError::At(place)) => Ok(format!(in alloc; "{place}")?),
        Err(PathError::OutOfMemory) => Err(OutOfMemory),
    }
}

/// What a case of paths comes to.
pub(crate) fn answer(
    alloc: Global,
    kind: &str,
    input: &str,
) -> Result<Option<String>, OutOfMemory> {
    if kind != "path" {
        return Ok(None);
    }
    let bytes = bytes_of(alloc, input)?;
    Ok(Some(shown(alloc, bytes.as_slice())?))
}
