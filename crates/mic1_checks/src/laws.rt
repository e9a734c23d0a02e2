//! What holds of all control stores.
ghost use Rattle.mic1_checks.specs.Transfer.{OneEnd, Transfers, TransfersLimits};

/// Where two stores lead from one boundary to ends that are alike, the second takes what the first takes.
pub fn transfer_law()
    ensures moves { Transfers }
    ensures limits { TransfersLimits }
    ensures one { OneEnd }
{}
