//! What paths give of values.

use case_rows::shown;
use json_path::{LONGEST_PATH, Path, SelectError, read, select};
use json_text::Tree;
use std::alloc::Global;
use zbx_types::OutOfMemory;

/// A part of the document of the Zabbix 6.0 manual, "JSONPath functionality".
fn manual() -> &'static str {
    "{\"books\":[{\"category\":\"reference\",\"author\":\"Nigel Rees\",\"title\":\"Sayings of the Century\",\"price\":8.95,\"id\":1},\
{\"category\":\"fiction\",\"author\":\"Evelyn Waugh\",\"title\":\"Sword of Honour\",\"price\":12.99,\"id\":2},\
{\"category\":\"fiction\",\"author\":\"Herman Melville\",\"title\":\"Moby Dick\",\"price\":8.99,\"id\":3},\
{\"category\":\"fiction\",\"author\":\"J. R. R. Tolkien\",\"title\":\"The Lord of the Rings\",\"price\":22.99,\"id\":4}],\
\"services\":{\"delivery\":{\"active\":true,\"price\":5,\"description\":\"delivery\"},\"bookbinding\":{\"active\":true,\"price\":154.99,\"description\":\"binding\"}},\
\"filters\":{\"price\":10,\"category\":\"fiction\",\"no filters\":\"no \\\"filters\\\"\"},\
\"tags\":[\"a\",\"b\",\"c\",\"d\",\"e\"]}"
}

/// What a path gives of a value, or why it gives nothing.
fn given(alloc: Global, tree: &Tree, path: &Path) -> Result<String, OutOfMemory> {
    match select(alloc, tree, path) {
        Ok(made) => shown(alloc, made.as_slice()),
        Err(SelectError::NoMatch) => Ok(String::from_str(alloc, "no match")?),
        Err(SelectError::NotNumber) => Ok(String::from_str(alloc, "no number")?),
        Err(SelectError::OutOfMemory) => Err(OutOfMemory),
    }
}

/// What a path gives of a document.
fn of_document(alloc: Global, document: &str, path: &Path) -> Result<String, OutOfMemory> {
    match json_text::read(alloc, document.as_bytes()).ok() {
        Some(tree) => {
            let made = given(alloc, &tree, path);
            drop(tree);
            made
        }
        None => Ok(String::from_str(alloc, "no JSON")?),
    }
}

/// What the path that a text is gives of a document.
fn selected(alloc: Global, document: &str, text: &str) -> Result<String, OutOfMemory> {
    if text.len() > LONGEST_PATH as usize {
        return Ok(String::from_str(alloc, "out of range")?);
    }
    match read(alloc, text.as_bytes()).ok() {
        Some(path) => of_document(alloc, document, &path),
        None => Ok(String::from_str(alloc, "no path")?),
    }
}

/// The same of a row, in which the document stands behind the path and a tab.
fn of_row(alloc: Global, input: &str) -> Result<String, OutOfMemory> {
    let (path, document) = input.split_once('\t').unwrap_or((input, ""));
    selected(alloc, document, path)
}

/// What a case of selections comes to.
pub(crate) fn answer(
    alloc: Global,
    kind: &str,
    input: &str,
) -> Result<Option<String>, OutOfMemory> {
    match kind {
        "selected" => Ok(Some(of_row(alloc, input)?)),
        "selected of the manual's document" => Ok(Some(selected(alloc, manual(), input)?)),
        _ => Ok(None),
    }
}
