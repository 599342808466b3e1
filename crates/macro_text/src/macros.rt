//! User macros.

use zbx_types::Text;

/// A user macro: its name as texts write it, with braces and dollar, as `{$MAX}`, and the text that stands for it (the
/// Zabbix 6.0 manual, "User macros").
#[derive(Debug, Drop)]
pub struct Macro {
    /// As written: `{$`, the name and `}`. A macro whose name is no reference is never used.
    pub name: Text,
    /// What is put in. May be empty, and may hold references, which then stay.
    pub value: Text,
}

/// A user macro whose texts stand elsewhere, as in a document.
#[derive(Clone, Copy, Debug)]
pub struct MacroRef<'m> {
    /// As that of a [`Macro`].
    pub name: &'m Text,
    /// As that of a [`Macro`].
    pub value: &'m Text,
}
