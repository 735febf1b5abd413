//! The first line: what kept a command from being answered by 9000, and in which method of the applet.

use crate::callees::{is_special_call, platform_callee};
use crate::explanation::Asked;
use crate::places::push_package;
use crate::reasons::reason_name;
use crate::statuses::status_text;
use crate::text::Text;
use jc_linker::linked::Linked;
use jc_memory::{Cause, FaultKind, Phase};
use jc_platform::names::{AppletsMethod, PlatformClass, PlatformMethod, SystemMethod};
use jc_transient::ClassWord;

/// Adds the cause.
pub(crate) fn push_cause(text: &mut Text, asked: &Asked<'_>) {
    let phase = asked.note.phase;
    match asked.note.cause {
        Cause::Nothing => text.push(own_answer(asked.status, phase, asked.has_run())),
        Cause::Exception(class, reason) => {
            push_exception(text, class, reason, asked.linked);
            push_phase(text, phase);
        }
        Cause::Fault(kind) => {
            text.push(b"code fault");
            push_phase(text, phase);
            text.push(b": ");
            text.push(told_text(told_fault(kind, asked)));
        }
    }
}

// Why the runtime environment answers so by itself: after a method of the applet that returned, perhaps by another return than its
// own, or without one.
const fn own_answer(status: u16, phase: Option<Phase>, has_run: bool) -> &'static [u8] {
    match (status, phase) {
        (0x6999, Some(Phase::Select)) => b"select did not answer true",
        (0x6985, Some(Phase::Install)) => b"install returned without having registered an instance",
        (0x6F00, Some(Phase::Install)) if has_run => b"install returned a value",
        (0x6F00, Some(Phase::Process)) if has_run => b"process returned a value",
        (0x6F00, _) => b"code fault before the first instruction",
        _ => status_text(status),
    }
}

/// Adds what the runtime environment had begun, if it had begun anything.
pub(crate) fn push_phase(text: &mut Text, phase: Option<Phase>) {
    let Some(phase) = phase else {
        return;
    };
    text.push(b" in ");
    text.push(match phase {
        Phase::Install => b"install".as_slice(),
        Phase::Select => b"select".as_slice(),
        Phase::Deselect => b"deselect".as_slice(),
        Phase::Process => b"process".as_slice(),
        Phase::RunCode => b"run code".as_slice(),
    });
}

fn push_exception(text: &mut Text, class: ClassWord, reason: Option<i16>, linked: &Linked) {
    let named = linked.platform().class_by_word(class);
    push_class(text, class, named, linked);
    let Some(reason) = reason else {
        return;
    };
    text.push(b" with reason ");
    text.push_hex(&reason.to_be_bytes());
    if let Some(named) = named {
        push_reason_name(text, named, reason);
    }
}

// The name of a reason, where the standard gives it one.
fn push_reason_name(text: &mut Text, class: PlatformClass, reason: i16) {
    if let Some(name) = reason_name(class, reason) {
        text.push(b" (");
        text.push(name);
        text.push(b")");
    }
}

/// Adds a class: of the platform by its name, another by its package's AID and its number there.
pub(crate) fn push_class(
    text: &mut Text,
    class: ClassWord,
    named: Option<PlatformClass>,
    linked: &Linked,
) {
    if let Some(named) = named {
        text.push(named.name());
        return;
    }
    push_package(text, (class.0 / 256) as u8, linked);
    text.push(b".");
    text.push_number(u32::from(class.0 % 256));
}

// Why code ended, as far as the call at which it ended says more.
enum ToldFault {
    /// As it was noted.
    Noted(FaultKind),
    /// An installation ended by an abort.
    AbortOfInstallation,
}

// What a fault is reported as. A call of `abortTransaction`, which takes and returns nothing, ends code only within an installation, and
// one of the superclass's `process` because `Applet` has no code for it.
fn told_fault(kind: FaultKind, asked: &Asked<'_>) -> ToldFault {
    let (FaultKind::WrongArguments | FaultKind::FullStack) = kind else {
        return ToldFault::Noted(kind);
    };
    let Some(spot) = asked.note.spots.as_slice().first() else {
        return ToldFault::Noted(kind);
    };
    match platform_callee(*spot, asked) {
        Some(PlatformMethod::System(SystemMethod::JcSystemAbortTransaction)) =>
            ToldFault::AbortOfInstallation,
        Some(PlatformMethod::Applets(AppletsMethod::AppletProcess))
            if is_special_call(*spot, asked) => { ToldFault::Noted(FaultKind::NoMethod) }
        _ => ToldFault::Noted(kind),
    }
}

const fn told_text(fault: ToldFault) -> &'static [u8] {
    match fault {
        ToldFault::Noted(kind) => fault_text(kind),
        ToldFault::AbortOfInstallation => b"abortTransaction within an installation",
    }
}

const fn fault_text(kind: FaultKind) -> &'static [u8] {
    match kind {
        FaultKind::NoInstruction => b"no instruction stands here, or it is cut",
        FaultKind::NotLent => b"run code has no such instruction",
        FaultKind::EmptyStack => b"a cell is taken from the empty stack",
        FaultKind::FullStack => b"the stack is full",
        FaultKind::WrongKind => b"a cell of the wrong kind",
        FaultKind::NoLocal => b"no such local",
        FaultKind::JumpOutside => b"a jump outside the method",
        FaultKind::NoObject => b"no object stands behind the reference",
        FaultKind::NoMember => b"the constant pool has no such field, method or class here",
        FaultKind::WrongClass =>
            b"the object is not of the class or kind that the instruction wants",
        FaultKind::WrongArguments => b"the arguments are not those of the method",
        FaultKind::NoMethod => b"the method is abstract or cut, or the object's class has none",
        FaultKind::TooManyFrames => b"33rd frame",
        FaultKind::TooManyCells => b"513th cell",
        FaultKind::TooManyInstructions => b"the command's instructions are used up",
        FaultKind::Other => b"the instruction cannot use what it is given",
    }
}
