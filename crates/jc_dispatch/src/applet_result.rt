//! How the runtime environment answers after an applet's code has ended.
ghost use Rattle.std.specs.Prelude.{◌≡◌, false};
ghost use Rattle.jc_memory.specs.Cells.{header_at};
ghost use Rattle.jc_dispatch.specs.AppletResult.{result_of_exception, result_of_run, is_select_accepted};

use jc_frames::Outcome;
use jc_linker::linked::Linked;
use jc_memory::Memory;
use jc_platform::names::PlatformClass;
use jc_transient::Ref;
use jc_words::WordStore;
use jc_world::objects::is_instance_of;

/// How a command to an applet, or an installation, ended.
#[derive(Clone, Copy)]
pub enum AppletResult {
    /// As it should.
    Done,
    /// By an ISOException with this reason.
    Reason(i16),
    /// By another exception or a code fault: no precise diagnosis.
    Unknown,
    /// The applet did not let itself be selected.
    NotSelected,
    /// `install` returned and had registered no instance.
    NotRegistered,
    /// What an applet is to be made by is malformed.
    Malformed,
    /// No package has an applet with this AID.
    NoApplet,
    /// The registry has no place for another applet.
    RegistryFull,
}

// What an exception that nothing caught is answered by.
#[inline(always)]
fn result_of_exception<S: WordStore>(
    exception: Ref,
    memory: &Memory<S>,
    linked: &Linked,
) -> AppletResult
    requires up { memory.now.heap.down ≡ false }
    ensures { result ≡ result_of_exception linked.now memory.now exception
        (header_at memory.now exception) }
{
    let Some(facts) = memory.header(exception) else {
        return AppletResult::Unknown;
    };
    let class = linked.platform().class_word(PlatformClass::IsoException);
    if is_instance_of(facts, class, linked) && facts.length > 0 {
        AppletResult::Reason(memory.short(exception, 0))
    } else {
        AppletResult::Unknown
    }
}

/// What a method that hands nothing over is answered by.
#[tactic(auto, unfolding(crate::specs::AppletResult::result_of_run))]
#[inline(always)]
pub(crate) fn result_of_run<S: WordStore>(
    outcome: Outcome,
    memory: &Memory<S>,
    linked: &Linked,
) -> AppletResult
    requires up { memory.now.heap.down ≡ false }
    ensures { result ≡ result_of_run linked.now memory.now outcome }
{
    match outcome {
        Outcome::Void => AppletResult::Done,
        Outcome::Thrown(exception) => result_of_exception(exception, memory, linked),
        _ => AppletResult::Unknown,
    }
}

/// Whether `select` answered that the applet may be selected.
pub(crate) fn is_select_accepted(outcome: Outcome) -> bool
    ensures { result ≡ is_select_accepted outcome }
{
    match outcome {
        Outcome::Short(value) => value != 0,
        Outcome::Void | Outcome::Reference(_) | Outcome::Thrown(_) | Outcome::Fault => false,
    }
}
