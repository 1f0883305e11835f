//! A worked history on which the limits of costs and weights give the length that can be found by hand.
ghost use Rattle.worked_histories.specs.Gaps.{doubt_config, doubt_history};
ghost use Rattle.gap_laws.specs.Words.{AreNoLonger};
ghost use Rattle.worked_histories.specs.Examples.{units};
ghost use Rattle.length_laws.specs.Laws.{KeepLimits};

/// Nothing that is declared or costed in the history of `worked_histories::gaps::doubt` is above 4, and both weights
/// are 1.
/// So no request is longer than 4 units, and with one worker a tenant gets ahead by less than 2 times 4, from where it
/// was at the begin. It gets ahead by 7.
pub fn doubt()
    ensures limits { KeepLimits doubt_config doubt_history 0 1 4 1 }
    ensures lengths { AreNoLonger doubt_config doubt_history 0 1 (units 4) }
{}
