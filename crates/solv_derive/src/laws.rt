//! What good logs say: each law is the contract of a function that does nothing.
ghost use Rattle.solv_derive.specs.Laws.{GoodLogsRefute, YesIsForGoodLogs, LeavesAreNamed};

/// No set makes all leaves of a good log true.
pub fn good_logs_refute()
    ensures { GoodLogsRefute }
{}

/// A check answers yes for good logs, and for no other.
pub fn yes_is_for_good_logs()
    ensures { YesIsForGoodLogs }
{}

/// The leaves of a log ascend, each stands once, and they are exactly the rules that its hints name.
pub fn leaves_are_named()
    ensures { LeavesAreNamed }
{}
