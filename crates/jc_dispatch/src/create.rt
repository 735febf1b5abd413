//! "Create applet": which applet is to be installed, by which parameters.
ghost use Rattle.std.specs.Prelude.{OnOk, ◌≡◌, ◌≤◌, ◌<◌, false, length, IfSome, Some};
ghost use Rattle.std.specs.Option.{option_map};
ghost use Rattle.jc_memory.specs.Programs.{Executes};
ghost use Rattle.jc_heap.specs.Completions.{after_step};
ghost use Rattle.jc_dispatch.specs.Create.{applet_named, are_parameters, applet_creation, creation_of, ends_with_data, field_of, first_with_entry};
ghost use Rattle.jc_dispatch.specs.Create.{has_aid_length, instance_named, third_field, slice_pair_bytes, slice_bytes};

use crate::applet_result::AppletResult;
use crate::install::{NewApplet, install};
use jc_interp::attacks::Budget;
use jc_linker::linked::Linked;
use jc_memory::Memory;
use jc_transient::PackageNumber;
use jc_words::layout::MOST_APPLETS;
use jc_words::{StoreDown, WordStore};

/// The most bytes of an installation's parameters.
const MOST_PARAMETERS: usize = 127;

// A field after its length, and what follows it.
fn field_of(bytes: &[u8]) -> Option<(&[u8], &[u8])>
    ensures { option_map slice_pair_bytes result ≡ field_of bytes.entry.now }
{
    let (count, rest) = bytes.split_first()?;
    let count = usize::from(*count);
    if count <= rest.len() {
        Some((&rest[..count], &rest[count..]))
    } else {
        None
    }
}

fn has_aid_length(aid: &[u8]) -> bool
    ensures { result ≡ has_aid_length aid.now }
{
    5 <= aid.len() && aid.len() <= 16
}

fn instance_named(bytes: &[u8]) -> bool
    ensures { result ≡ instance_named bytes.now }
{
    match field_of(bytes) {
        Some((aid, _)) => aid.len() == 0 || has_aid_length(aid),
        None => false,
    }
}

// What follows the third field.
fn behind_data(bytes: &[u8]) -> Option<&[u8]>
    ensures { option_map slice_bytes result ≡ option_map (λ d. d.1) (third_field bytes.entry.now) }
{
    let (_, rest) = field_of(bytes)?;
    let (_, rest) = field_of(rest)?;
    let (_, rest) = field_of(rest)?;
    Some(rest)
}

fn ends_with_data(bytes: &[u8]) -> bool
    ensures { result ≡ ends_with_data bytes.now }
{
    match behind_data(bytes) {
        Some(rest) => rest.len() == 0,
        None => false,
    }
}

fn are_parameters(bytes: &[u8]) -> bool
    ensures { result ≡ are_parameters bytes.now }
{
    bytes.len() <= MOST_PARAMETERS && instance_named(bytes) && ends_with_data(bytes)
}

// The AID of the applet in its package, and the parameters.
#[tactic(auto, unfolding(crate::specs::Create::creation_of))]
fn creation_of(bytes: &[u8]) -> Option<(&[u8], &[u8])>
    ensures parts { option_map slice_pair_bytes result ≡ creation_of bytes.entry.now }
    ensures short { IfSome result (λ parts. length parts.1.now ≤ 127) }
{
    let (aid, parameters) = field_of(bytes)?;
    if has_aid_length(aid) && are_parameters(parameters) {
        Some((aid, parameters))
    } else {
        None
    }
}

// The first package with an applet of this AID.
fn first_with_entry(aid: &[u8], linked: &Linked) -> Option<u8>
    ensures { result ≡ first_with_entry linked.now aid.now 1 (length linked.now.loaded) }
{
    for number in 1..linked.last() + 1 {
        if linked.entry_with_aid(number, aid).is_some() {
            return Some(number);
        }
    }
    None
}

#[tactic(auto, unfolding(crate::specs::Create::applet_named))]
fn applet_named(aid: &[u8], linked: &Linked) -> Option<(u8, u8)>
    ensures { result ≡ applet_named linked.now aid.now }
{
    let number = first_with_entry(aid, linked)?;
    let entry = linked.entry_with_aid(number, aid)?;
    Some((number, entry))
}

/// Makes an applet of these data: the AID of the applet in its package; then the parameters: the
/// instance's AID, the control information and the applet's data. Each stands after its length.
#[tactic(auto, unfolding(crate::specs::Create::applet_creation))]
pub fn create<S: WordStore>(
    budget: Budget,
    bytes: &[u8],
    memory: &mut Memory<S>,
    linked: &Linked,
) -> Result<AppletResult, StoreDown>
    requires up { memory.old.heap.down ≡ false }
    requires outside { memory.old.heap.begun ≡ false }
    ensures does { Executes (applet_creation budget linked.now bytes.now memory.old) memory.old
        (after_step result memory.new) }
    ensures outside { OnOk result (memory.new.heap.begun ≡ false) }
{
    let Some((aid, parameters)) = creation_of(bytes) else {
        return Ok(AppletResult::Malformed);
    };
    let Some((number, entry)) = applet_named(aid, linked) else {
        return Ok(AppletResult::NoApplet);
    };
    if memory.heap().applets() >= MOST_APPLETS {
        return Ok(AppletResult::RegistryFull);
    }
    let Some(offset) = linked.install_at(number, entry) else {
        return Ok(AppletResult::NoApplet);
    };
    let applet = NewApplet {
        home: PackageNumber(number),
        entry,
        offset,
        parameters,
    };
    install(budget, applet, memory, linked)
}
