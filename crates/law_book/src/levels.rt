//! Laws of levels.
ghost use Rattle.fq_model.specs.Level.{LevelIsTheOne};

/// Backlogs whose weights are 1 or more have one level.
pub fn level_is_the_one()
    ensures { LevelIsTheOne }
{}
