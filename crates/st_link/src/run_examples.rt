//! Worked examples: texts whose programs are in their layouts.

ghost use Rattle.std.specs.Prelude.{codes};
ghost use Rattle.st_meaning.specs.Scopes.{Scope, of_program};
ghost use Rattle.layout.specs.LayoutExamples.{adder, adding};
ghost use Rattle.layout.specs.LibraryExamples.{main};
ghost use Rattle.layout.specs.PartExamples.{over_parts, text_of_parts};
ghost use Rattle.st_link.specs.Homes.{RunsIn, IsProgramRun};
ghost use Rattle.st_link.specs.RunExamples.{calls_and_globals};
ghost use Rattle.st_link.specs.WellTypedRuns.{IsWellTypedRun};

/// A program that adds to a global is run by its instance: all premises for such a run hold.
pub fn a_run_of_a_program()
    ensures { (w : Scope)
        → RunsIn adder (of_program record { resource = codes "R"; instance = codes "P" }) w
        → IsProgramRun adding adder w }
{}

/// A program that calls a block, which calls another block and a function and adds to a global: all premises of the law
/// of well-typed runs hold.
pub fn a_well_typed_run()
    ensures { IsWellTypedRun calls_and_globals record { resource = codes "R"; instance = codes "P" } main 0 }
{}

/// A program with a loop over elements and fields, values of an enumerated type, instances of a block and of a timer, a
/// function and an input of the plant, at the greatest moment of a row: all premises of the law of well-typed runs
/// hold.
pub fn a_well_typed_run_over_parts()
    ensures { IsWellTypedRun text_of_parts record { resource = codes "R"; instance = codes "P" } over_parts
        4611686018427387903 }
{}
