//! A worked history that is legal under the widest limits, and not under those of texts.
ghost use Rattle.fq_model.specs.Limits.{InLimits, IsWithinText, as_text};
ghost use Rattle.fq_model.specs.Rules.{IsLegal};
ghost use Rattle.limit_laws.specs.Examples.{raised_config, raised_history};

/// The numbers of this configuration are within those of texts, but its history gives a weight of 1001. So numbers of
/// the configuration alone do not tell whether a history is legal under the limits of texts.
pub fn raised()
    ensures limits { InLimits raised_config }
    ensures numbers { IsWithinText raised_config }
    ensures legal { IsLegal raised_config raised_history }
    ensures not_of_text { ¬ IsLegal (as_text raised_config) raised_history }
{}
