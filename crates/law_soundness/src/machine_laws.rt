//! Laws of the definitions.
ghost use Rattle.law_soundness.specs.MachineLaws.Calls.{NativesLeave};
ghost use Rattle.law_soundness.specs.MachineLaws.LocalEffects.{LocalEffectsStay};
ghost use Rattle.law_soundness.specs.MachineLaws.Commands.{CommandsAreSound, ServingKeeps};
ghost use Rattle.law_soundness.specs.MachineLaws.CommandParts.{DispatchedAreRuns};
ghost use Rattle.law_soundness.specs.MachineLaws.Groups.{ArraysFit, FieldsFit, ObjectsFit};
ghost use Rattle.law_soundness.specs.MachineLaws.Natives.{NativesFit};
ghost use Rattle.law_soundness.specs.MachineLaws.Soundness.{FaultsAreSound, RunsAreSound, StepsAreSound};
ghost use Rattle.law_soundness.specs.MachineLaws.OwnerSwitches.{SwitchesHaveCauses};
ghost use Rattle.law_soundness.specs.MachineLaws.Steps.{AsksFit, CallsFit, InstructionsFit, LeavesFit};

/// Whatever an instruction on fields may do in a sound memory fits the packages that are linked.
pub fn effects_of_field_instructions_fit_packages()
    ensures { FieldsFit }
{}

/// Whatever an instruction on arrays may do in a sound memory fits the packages that are linked.
pub fn effects_of_array_instructions_fit_packages()
    ensures { ArraysFit }
{}

/// Making and testing an object in a sound memory fits the packages that are linked.
pub fn effects_of_object_instructions_fit_packages()
    ensures { ObjectsFit }
{}

/// Whatever a method of the platform may do in a sound memory fits the packages that are linked.
pub fn effects_of_platform_methods_fit_packages()
    ensures { NativesFit }
{}

/// In a sound machine each effect of a call fits, of the platform's method that it reaches, or as the frame of
/// one in bytecode begins.
pub fn effects_of_calls_fit_packages()
    ensures { CallsFit }
{}

/// Where the owners of the callers are known, each effect of a return and of an exception fits.
pub fn effects_of_returns_and_exceptions_fit_packages()
    ensures { LeavesFit }
{}

/// Each effect fits by which the runtime environment asks a server whose applet is known.
pub fn effects_of_server_calls_fit_packages()
    ensures { AsksFit }
{}

/// In a sound machine each effect of an instruction that calls no method fits, of any in a package's method,
/// and of a plain one in code that was lent.
pub fn effects_of_instructions_fit_packages()
    ensures { InstructionsFit }
{}

/// An effect that registers nothing, neither begins nor ends a transaction and leaves the installation leaves a
/// memory as it is between two instructions, owners known, and each object that was there.
pub fn local_effects_keep_machines_between_instructions()
    ensures { LocalEffectsStay }
{}

/// Whatever a method of the platform does in a sound memory, unless it ends the run the memory then stands as
/// between two instructions, with the same owner active, and what is handed over or asked is there: but for an abort,
/// after which references to what it took away are to become null, each object that was there still is.
pub fn platform_methods_end_between_instructions()
    ensures { NativesLeave }
{}

/// A fault between two instructions, of each kind and in whatever code, leaves a sound machine sound, or ends by a code fault; and so do all faults
/// of a command that come there.
pub fn faulted_states_are_sound()
    ensures { FaultsAreSound }
{}

/// Whatever a step of a sound machine does fits the packages that are linked, and leaves a sound machine: so no local
/// and no stack ever has a reference that names nothing, and no run returns one or ends by throwing one. So it is of a step after a fault.
pub fn steps_keep_machines_sound()
    ensures { StepsAreSound }
{}

/// Whatever a run of a sound machine does fits the packages that are linked, also where an attack comes in it.
pub fn effects_of_runs_fit_packages()
    ensures { RunsAreSound }
{}

/// An effect of a command that fits, and the beginning of an installation, leave a memory sound, and the
/// runtime environment's objects its own.
pub fn effects_of_commands_keep_memories_sound()
    ensures { ServingKeeps }
{}

/// Whatever is done to select an applet, to install one, or by one to answer fits the packages that are linked,
/// and leaves a memory that fits them, with no transaction open. It is what the runtime environment does, which
/// commits nothing, and runs of code from where methods may begin.
pub fn commands_keep_memories_sound()
    ensures { CommandsAreSound }
{}

/// A step for which code then runs for another owner calls a method on an object in another context, which the firewall
/// answers with a switch; or asks a server, for which a method of the platform is called; or ends a method, by a return or
/// an exception, and goes on for whom its caller ran.
pub fn steps_switch_contexts_for_causes()
    ensures { SwitchesHaveCauses }
{}

/// What is done so, the runtime environment does, or a step of code that began within it.
pub fn what_is_dispatched_is_the_environments_or_of_a_run<A>()
    ensures { DispatchedAreRuns A }
{}
