//! The numbering of calls, some of which are to fail.
ghost use Rattle.std.specs.Prelude.{◌≡◌, ◌≤◌, ◌↔◌, IsTrue, if◌then◌else◌};
ghost use Rattle.knot_ports.specs.Faults.{one_more};
ghost use Rattle.knot_ports.specs.Memory.{CallRecord, FailsNext, after_pass, after_failure, no_calls};

use std::marker::Model;

/// Calls, numbered from 0 to 2^64 - 2: a later one has no number and isn't listed.
#[derive(Drop)]
pub(crate) struct Calls {
    failing: Vec<u64>,
    made: u64,
    failed: u64,
}

impl Model for Calls {
    ghost use Rattle.knot_ports.specs.Memory.{CallRecord};

    ghost Value = { CallRecord };

    ghost view = { λ c. record { failing = c.failing.items; made = c.made; failed = c.failed } };
}

impl Calls {
    /// No call was made yet.
    pub(crate) fn new(failing: Vec<u64>) -> Calls
        ensures { result ≡ no_calls failing.items }
    {
        Calls {
            failing,
            made: 0,
            failed: 0,
        }
    }

    /// Numbers a call, and answers whether it is one that fails, which is counted.
    pub(crate) fn next_fails(&mut self) -> bool
        ensures listed { IsTrue result ↔ FailsNext self.old }
        ensures after { self.new ≡ (if result then after_failure self.old else after_pass self.old) }
        ensures count { self.old.failed ≤ self.new.failed }
    {
        let call = self.made;
        if call == u64::MAX {
            return false;
        }
        self.made = call + 1;
        if self.failing.contains(&call) {
            self.failed = self.failed.saturating_add(1);
            return true;
        }
        false
    }

    /// Counts the call that was numbered last as failed.
    pub(crate) fn count_failure(&mut self)
        ensures after { self.new ≡ record self.old { failed = one_more self.old.failed } }
        ensures count { self.old.failed ≤ self.new.failed }
    {
        self.failed = self.failed.saturating_add(1);
    }
}
