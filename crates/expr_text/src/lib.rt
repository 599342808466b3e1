//! Expressions of triggers written: from a tree and its calls, as `expr_parser` reads them, to a text.
//!
//! The public contract: [`write`] gives the one written form of an expression; of one that was read it is a text of the
//! same expression and of no other.
//!
//! The written form is this project's own, in the words of the Zabbix 6.0 manual ("Trigger expression"):
//!
//! ```text
//! constant   a written number, without a suffix
//! call       name(/host/key), with a range wherever the function takes one, a shift other than 0, and texts in quotes:
//!            first(/h/k,#1)  avg(/h/k,300:now-60)  find(/h/k,#1,"like","a \"b\"")  now()
//! operator   a > b  -a  not a, and an operand that is one of these itself in parentheses: (a + b) * 2
//! ```
//!
//! So texts of one expression that differ in blanks, suffixes, defaults and parentheses have one written form.
//!
//! ```text
//! let parsed = expr_parser::read(alloc, b"last(/h/k)>5K and (not(find(/h/k,1m)))")?;
//! let text = expr_text::write(alloc, &parsed)?; // (last(/h/k,#1) > 5120) and (not find(/h/k,60))
//! ```
#![tactic(auto)]

mod call_text;
mod writing;

pub use writing::write;
