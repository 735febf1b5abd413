//! Laws of the definitions.
ghost use Rattle.law_code.specs.IsolationLaws.Groups.{ArraysSpare, FieldsSpare, ObjectsSpare};
ghost use Rattle.law_code.specs.IsolationLaws.Natives.{NativesSpare};
ghost use Rattle.law_code.specs.IsolationLaws.Runs.{AreIsolated, RunsAreSteps};
ghost use Rattle.law_code.specs.IsolationLaws.SparingEffects.{LeaveObjects};
ghost use Rattle.law_code.specs.IsolationLaws.Steps.{ResolveStatics, StepsSpare};

/// Quiet effects that spare an object outside the reach of the code that runs leave its cells as they are, and
/// leave it outside that reach.
pub fn objects_left_alone_keep_their_cells()
    ensures { LeaveObjects }
{}

/// Whatever an instruction on fields may do spares each object outside the reach of the code that runs.
pub fn field_instructions_leave_objects_out_of_reach()
    ensures { FieldsSpare }
{}

/// Whatever an instruction on arrays may do spares each object outside the reach of the code that runs.
pub fn array_instructions_leave_objects_out_of_reach()
    ensures { ArraysSpare }
{}

/// Making and testing an object spares each object outside the reach of the code that runs.
pub fn object_instructions_leave_objects_out_of_reach()
    ensures { ObjectsSpare }
{}

/// Whatever a method of the platform may do spares each object outside the reach of the code that runs, but for
/// the one that it is called on, and the value of a PIN that it updates.
pub fn platform_methods_leave_objects_out_of_reach()
    ensures { NativesSpare }
{}

/// Whatever a step may do that stays in its context spares each object outside the reach of the code that runs.
pub fn steps_leave_objects_out_of_reach()
    ensures { StepsSpare }
{}

/// Between two switches, and with no abort and no clear event, each object outside the reach of the code that
/// runs keeps its cells.
pub fn contexts_are_isolated()
    ensures { AreIsolated }
{}

/// Each run is such steps, one after the other.
pub fn runs_are_steps()
    ensures { RunsAreSteps }
{}

/// What an entry of a constant pool resolves to as a static method of the platform is one.
pub fn entries_resolve_to_static_methods()
    ensures { ResolveStatics }
{}
