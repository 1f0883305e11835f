//! Laws of the fluid service.
ghost use Rattle.fq_model.specs.Fluid.{ChangesSayAll};
ghost use Rattle.fluid_reference.specs.Slots.{ServesWhatCame};

/// Beside the requests, the fluid service depends on a history by its changes alone.
pub fn changes_say_all()
    ensures { ChangesSayAll }
{}

/// The fluid service of a tenant in the first slots is at most the cost of its requests that came by the start of the
/// last of these slots.
pub fn serves_what_came()
    ensures { ServesWhatCame }
{}
