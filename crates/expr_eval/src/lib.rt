//! The value of a trigger's expression.
//!
//! The public contract: [`eval`] gives the value of an expression over the values of its calls, which its caller has worked
//! out before, or None where it is unknown. It takes no memory. [`operation`] and [`negation`] are its operators, for
//! expressions that lie in another form.
//!
//! An unknown value comes from a call that has none, or from arithmetic without a result: a division by 0, or a result out
//! of range. The rules are three-valued (the Zabbix 6.0 manual, "Trigger expression", "Unknown operands in expressions"):
//!
//! ```text
//! =  <>  <  <=  >  >=     1 or 0
//! not                     1 for 0, 0 for any other number
//! or                      1 where an operand is other than 0, also beside an unknown one; 0 where both are 0
//! and                     0 where an operand is 0, also beside an unknown one; 1 where both are other than 0
//! +  -  *  /  and -x      the result, cut towards zero at six decimals
//! ```
//!
//! Every other use of an unknown operand is unknown. All operands are evaluated, those of `and` and `or` too.
//!
//! The evaluation calls itself once for each level of the expression's tree, so it needs stack for as many calls as the tree
//! is deep. A text of 4,096 bytes gives a tree of at most about 4,096 nodes, of which at most about half lie on one path, as
//! in `1+1+1+..`.
//!
//! ```text
//! // last(/h/k)>5 or not last(/h/k)
//! match eval(&expr, &[Fix::read(b"10"), None]) {
//!     Some(value) => ..,  // 1,000,000 millionths
//!     None => ..,         // unknown
//! }
//! ```
#![tactic(auto)]

mod operations;
mod values;

pub use operations::{negation, operation};
pub use values::eval;
