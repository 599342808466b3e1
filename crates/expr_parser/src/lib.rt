//! Expressions of triggers, as `avg(/h/system.cpu.load,5m)>2 and last(/h/k)<>0`: from a text to a tree and its calls.
//! The way back is `expr_text`'s.
//!
//! The public contract: [`read`] gives the expression that the grammar relates to the text, with its calls in order, or
//! the first byte where no expression goes on; [`one_expression`]: no text is two.
//!
//! The grammar is the Zabbix 6.0 manual's ("Trigger expression", "Supported functions"), within limits of this project:
//!
//! ```text
//! or   = and { "or" and }          prod = not { ("*" | "/") not }
//! and  = eq { "and" eq }           not  = "not" neg | neg
//! eq   = rel { ("=" | "<>") rel }  neg  = "-" prim | prim
//! rel  = sum { ("<=" | ">=" | "<" | ">") sum }
//! sum  = prod { ("+" | "-") prod } prim = number | "(" or ")" | call
//!
//! call = name "(" "/" host "/" key { "," argument } ")", or the name of a function of date or time and "()"
//! ```
//!
//! Binary operators associate to the left. `and`, `or` and `not` stand between blanks or parentheses, or at the
//! beginning. Blanks may stand between other parts too, and in a call behind commas. A text has at most 4,096 bytes, 32
//! calls and 32 open parentheses, a host 128 bytes and a key 2,048. Quoted texts and keys are UTF-8.
//!
//! ```text
//! let parsed = expr_parser::read(alloc, b"last(/h/k,#2)>5")?;
//! // parsed.expr is Bin(Gt, Call(0), Const(5)), and parsed.calls has one call, of Last over #2
//! ```
#![tactic(auto)]

mod call_bytes;
mod figures;
mod keys;
mod moves;
mod names;
mod operand_bytes;
mod operator_bytes;
mod parts;
mod pending;
mod range_bytes;
mod reading;
mod slots;
mod states;
mod staying;
mod whole_numbers;

pub use reading::{ParseError, Parsed, one_expression, read};
