//! When retries and waits are spent.

ghost use Rattle.rdma_types.specs.declared.requests.WcStatus.TheVariants.{RetryExceeded, RnrExceeded};
ghost use Rattle.law_simulation.specs.Spent.{ComesOnlyBy, IsLastExpiry, IsLastWait};

/// At the machine a completion with status 12 comes only by an expiry of an end whose counted expiries are all that it has, and
/// one with status 13 only by a wait of an end whose counted waits are all that it has.
pub fn limits_are_spent()
    ensures expiries { ComesOnlyBy RetryExceeded IsLastExpiry }
    ensures waits { ComesOnlyBy RnrExceeded IsLastWait }
{}
