//! Texts whose references to macros are replaced, without a limit and up to one.
//!
//! Definitions are written as `{$A}=a {$B}=b`.

use case_rows::number;
use macro_text::{
    Expansion, Macro, MacroIndex, MacroRef, Macros, expand, expand_front, expand_within,
};
use std::alloc::Global;
use std::convert::AsStr;
use zbx_types::{Bytes, Many, OutOfMemory, Text};

/// The parts of a row: a limit, the near definitions, the global ones, and the text, with tabs between.
#[derive(Clone, Copy)]
struct Limited<'a> {
    most: &'a str,
    near: &'a str,
    global: &'a str,
    text: &'a str,
}

fn limited_of(input: &str) -> Limited<'_> {
    let (most, rest) = input.split_once('\t').unwrap_or((input, ""));
    let (near, rest) = rest.split_once('\t').unwrap_or((rest, ""));
    let (global, text) = rest.split_once('\t').unwrap_or((rest, ""));
    Limited {
        most,
        near,
        global,
        text,
    }
}

fn macro_of(alloc: Global, name: &str, value: &str) -> Result<Macro, OutOfMemory> {
    Ok(Macro {
        name: Text::of(alloc, name)?,
        value: Text::of(alloc, value)?,
    })
}

/// The macros of definitions.
fn defined(alloc: Global, written: &str) -> Result<Many<Macro>, OutOfMemory> {
    let mut made = Many::new(alloc);
    for one in written.split(' ') {
        if let Some((name, value)) = one.split_once('=') {
            made.push(macro_of(alloc, name, value)?)?;
        }
    }
    Ok(made)
}

/// The text with its references replaced, behind the definitions and a tab.
fn expanded(alloc: Global, input: &str) -> Result<String, OutOfMemory> {
    let (written, text) = input.split_once('\t').unwrap_or(("", input));
    let lookup = defined(alloc, written)?;
    let text = Text::of(alloc, text)?;
    Ok(expand(alloc, &text, &lookup)?.into_string())
}

fn index_of(alloc: Global, macros: &Many<Macro>) -> Result<MacroIndex<'_>, OutOfMemory> {
    let mut listed = Many::new(alloc);
    for one in macros.as_slice() {
        listed.push(MacroRef {
            name: &one.name,
            value: &one.value,
        })?;
    }
    MacroIndex::of(alloc, listed)
}

/// How many bytes a front has, and a `+`.
fn length(alloc: Global, front: &Bytes) -> Result<String, OutOfMemory> {
    Ok(format!(in alloc; "{length}+", length = front.len())?)
}

/// A text with its references replaced, or the length of its front where it is longer than the limit.
fn within(alloc: Global, text: &Text, macros: &Macros, most: usize) -> Result<String, OutOfMemory> {
    match expand_within(alloc, text, macros, most)? {
        Expansion::Whole(made) => Ok(made.into_string()),
        Expansion::Longer(front) => length(alloc, &front),
    }
}

/// The text within the limit, or its front of whole characters.
fn shown(
    alloc: Global,
    limited: Limited<'_>,
    macros: &Macros,
    is_front: bool,
) -> Result<String, OutOfMemory> {
    let most = number(limited.most) as usize;
    let text = Text::of(alloc, limited.text)?;
    if is_front {
        Ok(expand_front(alloc, &text, macros, most)?.into_string())
    } else {
        within(alloc, &text, macros, most)
    }
}

fn near_to(
    alloc: Global,
    limited: Limited<'_>,
    global: &MacroIndex,
    is_front: bool,
) -> Result<String, OutOfMemory> {
    let near = defined(alloc, limited.near)?;
    let macros = Macros::new(index_of(alloc, &near)?, global);
    shown(alloc, limited, &macros, is_front)
}

fn of_row(alloc: Global, input: &str, is_front: bool) -> Result<String, OutOfMemory> {
    let limited = limited_of(input);
    let global = defined(alloc, limited.global)?;
    let index = index_of(alloc, &global)?;
    near_to(alloc, limited, &index, is_front)
}

/// What a case of macros comes to.
pub(crate) fn answer(
    alloc: Global,
    kind: &str,
    input: &str,
) -> Result<Option<String>, OutOfMemory> {
    match kind {
        "macros" => Ok(Some(expanded(alloc, input)?)),
        "macros within" => Ok(Some(of_row(alloc, input, false)?)),
        "front with macros" => Ok(Some(of_row(alloc, input, true)?)),
        _ => Ok(None),
    }
}
