//! Applets that take commands in the extended form.
ghost use Rattle.std.specs.Prelude.{◌≡◌, false};
ghost use Rattle.jc_dispatch.specs.ExtendedLength.{implements_extended_length};

use crate::phase::instance_of;
use jc_linker::linked::Linked;
use jc_memory::Memory;
use jc_platform::names::PlatformClass;
use jc_transient::AppletNumber;
use jc_words::WordStore;

/// Whether the class of an applet, or one above it, implements `ExtendedLength`. Where no applet answers, it does not.
pub fn implements_extended_length<S: WordStore>(
    applet: Option<AppletNumber>,
    memory: &Memory<S>,
    linked: &Linked,
) -> bool
    requires up { memory.now.heap.down ≡ false }
    ensures { result ≡ implements_extended_length linked.now memory.now applet }
{
    let Some(applet) = applet else {
        return false;
    };
    let Some(facts) = memory.header(instance_of(applet, memory)) else {
        return false;
    };
    let interface = linked.platform().class_word(PlatformClass::ExtendedLength);
    linked.is_below(facts.class(), interface)
}
