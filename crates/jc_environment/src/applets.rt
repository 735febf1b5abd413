//! Applets by their numbers in the registry.
ghost use Rattle.std.specs.Prelude.{◌≡◌, ◌≤◌, false};
ghost use Rattle.jc_words.specs.Layout.{most_applets};
ghost use Rattle.jc_environment.specs.Registry.{aid_of_applet, applet_count, applet_entry, applet_with_aid, has_aid, instance_of_applet, package_of_applet};

use crate::aid::{aid_at, may_hold};
use jc_heap::AppletEntry;
use jc_heap::registry_layout::{ENTRY_INSTANCE, ENTRY_PACKAGE, entry_start};
use jc_memory::Memory;
use jc_transient::{AppletNumber, Ref};
use jc_words::WordStore;
use jc_words::layout::MOST_APPLETS;

/// How many applets there are. Their numbers are 1 to this.
pub fn applet_count<S: WordStore>(memory: &Memory<S>) -> u8
    requires up { memory.now.heap.down ≡ false }
    ensures count { result ≡ applet_count memory.now.heap.now }
    ensures few { result ≤ most_applets }
{
    memory.heap().applets().min(MOST_APPLETS) as u8
}

/// What the registry keeps of the applet with this number; `None` where no applet has it.
#[tactic(auto, unfolding(crate::specs::Registry::applet_entry))]
pub fn entry_of_applet<S: WordStore>(
    memory: &Memory<S>,
    number: AppletNumber,
) -> Option<AppletEntry>
    requires up { memory.now.heap.down ≡ false }
    ensures { result ≡ applet_entry memory.now.heap.now number.0 }
{
    let n = number.0;
    if n == 0 || n > applet_count(memory) {
        return None;
    }
    let at = entry_start(u16::from(n) - 1);
    let heap = memory.heap();
    Some(AppletEntry {
        aid: Ref::at(heap.registry(at)),
        package: heap.registry(at + ENTRY_PACKAGE),
        instance: Ref::at(heap.registry(at + ENTRY_INSTANCE)),
    })
}

/// The AID object of an applet; none where no applet has the number.
pub fn aid_of_applet<S: WordStore>(memory: &Memory<S>, number: AppletNumber) -> Option<Ref>
    requires up { memory.now.heap.down ≡ false }
    ensures { result ≡ aid_of_applet memory.now.heap.now number.0 }
{
    Some(entry_of_applet(memory, number)?.aid)
}

/// The number of an applet's package.
pub fn package_of_applet<S: WordStore>(memory: &Memory<S>, number: AppletNumber) -> Option<u16>
    requires up { memory.now.heap.down ≡ false }
    ensures { result ≡ package_of_applet memory.now.heap.now number.0 }
{
    Some(entry_of_applet(memory, number)?.package)
}

/// The instance of an applet; none where no applet has the number.
pub fn instance_of_applet<S: WordStore>(memory: &Memory<S>, number: AppletNumber) -> Option<Ref>
    requires up { memory.now.heap.down ≡ false }
    ensures { result ≡ instance_of_applet memory.now.heap.now number.0 }
{
    Some(entry_of_applet(memory, number)?.instance)
}

/// Whether an applet has this AID.
pub fn has_aid<S: WordStore>(memory: &Memory<S>, aid: &[u8], number: AppletNumber) -> bool
    requires up { memory.now.heap.down ≡ false }
    ensures { result ≡ has_aid memory.now aid.now number.0 }
{
    let Some(object) = aid_of_applet(memory, number) else {
        return false;
    };
    if !may_hold(memory, object, aid) {
        return false;
    }
    match aid_at(memory, object) {
        Some(held) => held.bytes() == aid,
        None => false,
    }
}

/// The number of the applet with this AID, the first one, if there is one.
#[tactic(auto, unfolding(crate::specs::Registry::applet_with_aid))]
pub fn applet_with_aid<S: WordStore>(memory: &Memory<S>, aid: &[u8]) -> Option<AppletNumber>
    requires up { memory.now.heap.down ≡ false }
    ensures { result ≡ applet_with_aid memory.now aid.now }
{
    for n in 1..applet_count(memory) + 1 {
        if has_aid(memory, aid, AppletNumber(n)) {
            return Some(AppletNumber(n));
        }
    }
    None
}
