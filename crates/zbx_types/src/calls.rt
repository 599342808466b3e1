//! Calls of functions in expressions.

ghost use Rattle.std.specs.Prelude.{◌≡◌, IfOk};
ghost use Rattle.zbx_types.specs.Operators.{is_dated, call_pattern};

use crate::memory::OutOfMemory;
use crate::operators::{operator_of, pattern_of};
use crate::text::Text;
use std::alloc::Global;

/// The values that a function looks at (the Zabbix 6.0 manual, "Trigger expression", function parameters).
#[derive(Clone, Copy, Debug, PartialEq, Eq)]
pub enum Range {
    /// `#n`: this many of the latest values, from 1 to 10,000.
    Count(u32),
    /// The values of this many seconds, up to 31 days.
    Period(u32),
}

/// A call of a function in an expression (the Zabbix 6.0 manual, "Supported functions").
#[derive(Drop)]
pub struct Call {
    /// The function.
    pub fun: Fun,
    /// The host's name, or empty for a function of date or time.
    pub host: Text,
    /// The item's key, or empty for a function of date or time.
    pub key: Text,
    /// The values that it looks at; the function's own default where none is written.
    pub range: Range,
    /// The time shift in seconds, up to 31 days: how long before now the range ends.
    pub shift: u32,
    /// The first argument behind the range, an operator or a mode, or empty.
    pub op: Text,
    /// The second argument behind the range, or empty.
    pub arg: Text,
}

/// A function of an expression (the Zabbix 6.0 manual, "Supported functions").
#[derive(Clone, Copy, Debug, PartialEq, Eq)]
pub enum Fun {
    /// The n-th latest value.
    Last,
    /// The oldest value of the range.
    First,
    /// The least value.
    Min,
    /// The greatest value.
    Max,
    /// The mean value.
    Avg,
    /// The sum of the values.
    Sum,
    /// The latest value less the one before.
    Change,
    /// How many values match.
    Count,
    /// 1 where a value matches, else 0.
    Find,
    /// 1 where no value came in the period, else 0.
    NoData,
    /// The value below which a part of the values lies, in percent.
    Percentile,
    /// How many neighbouring values differ.
    ChangeCount,
    /// 1 where the values rise, else 0.
    MonoInc,
    /// 1 where the values fall, else 0.
    MonoDec,
    /// The seconds since moment 0.
    Now,
    /// The local time of day, as the number HHMMSS.
    Time,
    /// The local date, as the number YYYYMMDD.
    Date,
    /// The local day of the week, 1 for Monday to 7.
    DayOfWeek,
    /// The local day of the month, 1 to 31.
    DayOfMonth,
}

impl Fun {
    /// Whether it is a function of date or time, which looks at no item.
    pub fn is_dated(self) -> bool
        ensures { result ≡ is_dated self }
    {
        match self {
            Fun::Now | Fun::Time | Fun::Date | Fun::DayOfWeek | Fun::DayOfMonth => true,
            Fun::Last
            | Fun::First
            | Fun::Min
            | Fun::Max
            | Fun::Avg
            | Fun::Sum
            | Fun::Change
            | Fun::Count
            | Fun::Find
            | Fun::NoData
            | Fun::Percentile
            | Fun::ChangeCount
            | Fun::MonoInc
            | Fun::MonoDec => false,
        }
    }
}

impl Call {
    /// The pattern that it searches for: that of `count` and `find` whose operator is `regexp` or `iregexp`.
    /// [`OutOfMemory`] where there is no room for its copy.
    #[tactic(auto, unfolding(crate::specs::Operators::call_pattern))]
    pub fn pattern(&self, alloc: Global) -> Result<Option<Text>, OutOfMemory>
        ensures { IfOk result (λ pattern. pattern ≡ call_pattern self.now) }
    {
        match self.fun {
            Fun::Count | Fun::Find => {
                let operator = operator_of(self.op.as_bytes(), self.arg.as_bytes());
                pattern_of(alloc, operator, &self.arg)
            }
            _ => Ok(None),
        }
    }

    /// A copy. [`OutOfMemory`] where there is no room for it.
    pub fn copy(&self, alloc: Global) -> Result<Call, OutOfMemory>
        ensures { IfOk result (λ made. made ≡ self.now) }
    {
        Ok(Call {
            fun: self.fun,
            host: self.host.copy(alloc)?,
            key: self.key.copy(alloc)?,
            range: self.range,
            shift: self.shift,
            op: self.op.copy(alloc)?,
            arg: self.arg.copy(alloc)?,
        })
    }
}
