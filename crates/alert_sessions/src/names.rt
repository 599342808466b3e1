//! With what a call begins. Contracts alone know it: a program computes nothing from it.

use std::marker::Brand;

/// With what a call begins. Each call picks it.
pub(crate) trait CallName {
    ghost use Rattle.std.specs.Prelude.{List};
    ghost use Rattle.outside.specs.Disk.{DiskTells};
    ghost use Rattle.alert_queue.specs.Queues.{Queued};
    ghost use Rattle.alert_queue.specs.declared.types.NoteMark.{NoteMark};

    /// The queue.
    ghost start: { Queued };

    /// The marks.
    ghost kept: { List NoteMark };

    /// The disk of the marks.
    ghost disk: { DiskTells };
}

impl CallName for Brand {
    ghost use Rattle.std.specs.Prelude.{[]};
    ghost use Rattle.outside.specs.Disk.{silent};

    ghost start = { record { lanes = []; homes = []; now = 0 } };

    ghost kept = { [] };

    ghost disk = { silent 0 };
}
