ghost use Rattle.core_types.specs.Sample.{sample, sample_types};
ghost use Rattle.core_types.specs.Programs.{ProgramFits};

/// A program with an interface, a constructor, fields of both kinds, a loop on true that is left by a
/// result, two monitors and a thread that it starts is well typed: the laws speak of such programs.
pub fn a_counter_is_well_typed()
    ensures { ProgramFits sample sample_types }
{}
