//! What was refused: by the firewall, for want of room, or as a package was loaded.

use crate::callees::push_platform_method;
use crate::explanation::Asked;
use crate::maps::entry_name;
use crate::places::push_context;
use crate::text::Text;
use jc_firewall::access::Access;
use jc_linker::linked::Linked;
use jc_memory::{Cause, Denial, Member, MemberKind, RefusedLoad, Shortage, Space};
use jc_platform::names::{MethodKind, PlatformClass, PlatformMethod};
use std::alloc::AllocError;

/// The status word of a component that ends too early.
const TRUNCATED: u16 = 0x6401;

/// The status word where the Directory states another size of a component.
const SIZES_DISAGREE: u16 = 0x6407;

/// The status word where a component did not come.
const MISSING: u16 = 0x6408;

/// The status words where an imported package is not there, or has another version.
const NO_PACKAGE: u16 = 0x6421;

const OTHER_VERSION: u16 = 0x6422;

/// The number in place of an entry's where it is none of the constant pool.
const NO_ENTRY: u16 = 65_535;

/// Adds a line for each of what was refused.
pub(crate) fn push_refusals(text: &mut Text, asked: &Asked<'_>) {
    push_denial(text, asked);
    if let Some(shortage) = asked.note.shortage {
        push_shortage(text, shortage);
    }
    if let Some(refused) = &asked.note.refused_load {
        push_load(text, refused, asked);
    }
}

// The firewall's refusal, where that is what was thrown.
fn push_denial(text: &mut Text, asked: &Asked<'_>) {
    let Some(denial) = asked.note.denial else {
        return;
    };
    if throws_security(asked.note.cause, asked.linked) {
        push_rule(text, denial, asked);
    }
}

// What was thrown is a SecurityException.
fn throws_security(cause: Cause, linked: &Linked) -> bool {
    match cause {
        Cause::Exception(class, _) => {
            linked.platform().class_by_word(class) == Some(PlatformClass::SecurityException)
        }
        _ => false,
    }
}

fn push_rule(text: &mut Text, denial: Denial, asked: &Asked<'_>) {
    text.push(b"  firewall rule ");
    text.push_number(u32::from(denial.rule.number()));
    text.push(b": ");
    text.push(access_text(denial.access));
    text.push(b", by code of ");
    push_context(text, denial.active, asked.linked);
    text.push(b", the object is of ");
    push_context(text, denial.owner, asked.linked);
    text.push(b"\n");
}

const fn access_text(access: Access) -> &'static [u8] {
    match access {
        Access::StaticField => b"access to a static field",
        Access::ArrayElement => b"access to an array",
        Access::InstanceField => b"access to an instance field",
        Access::VirtualCall => b"call of a virtual method",
        Access::StandardInterfaceCall => b"call of an interface that is not shareable",
        Access::ShareableInterfaceCall => b"call of a shareable interface",
        Access::Throw => b"throw",
        Access::CastToClass => b"cast to a class or an array type",
        Access::CastToStandardInterface => b"cast to an interface that is not shareable",
        Access::CastToShareableInterface => b"cast to a shareable interface",
        Access::StoreReference => b"store of a reference",
    }
}

fn push_shortage(text: &mut Text, shortage: Shortage) {
    text.push(b"  asked for ");
    match shortage.space {
        Space::Heap => text.push_count(shortage.asked, b"word"),
        Space::ResetArea | Space::DeselectArea => text.push_count(shortage.asked, b"cell"),
        Space::Transaction => text.push_count(shortage.asked, b"place"),
    }
    text.push(space_text(shortage.space));
    text.push_number(shortage.left);
    text.push(b" left\n");
}

const fn space_text(space: Space) -> &'static [u8] {
    match space {
        Space::Heap => b" of the heap, ",
        Space::ResetArea => b" that a reset clears, ",
        Space::DeselectArea => b" that a deselection clears, ",
        Space::Transaction => b" of the transaction, ",
    }
}

fn push_load(text: &mut Text, refused: &RefusedLoad, asked: &Asked<'_>) {
    match refused {
        RefusedLoad::Component { tag, offset } => push_component(text, *tag, *offset, asked.status),
        RefusedLoad::Entry {
            entry,
            package,
            class,
            member,
        } => {
            if let NO_PACKAGE | OTHER_VERSION = asked.status {
                push_package_alone(text, package.as_slice());
                return;
            }
            push_named_entry(text, *entry, package.as_slice(), *class, *member, asked);
        }
    }
}

// The package that an import names.
fn push_package_alone(text: &mut Text, package: &[u8]) {
    text.push(b"  package ");
    text.push_hex(package);
    text.push(b"\n");
}

// An entry, with what it names.
fn push_named_entry(
    text: &mut Text,
    entry: u16,
    package: &[u8],
    class: Option<u8>,
    member: Option<Member>,
    asked: &Asked<'_>,
) {
    push_entry(text, entry);
    push_home(text, package);
    let named = named_class(package, class, asked.linked);
    push_token(text, b", class ", class);
    push_class_name(text, named);
    push_token(text, b", token ", token_of(member));
    match name_in_map(entry, package, class, member, asked) {
        Ok(Some(name)) => push_name(text, name),
        Ok(None) => push_method(text, named, member, asked.linked),
        Err(_) => text.give_up(),
    }
    text.push(b"\n");
}

// A component, and where it is wrong.
fn push_component(text: &mut Text, tag: u8, offset: u16, status: u16) {
    text.push(b"  component ");
    text.push_number(u32::from(tag));
    match (status, offset) {
        (MISSING, 0) => text.push(b" did not come\n"),
        (SIZES_DISAGREE, 0) => text.push(b" has another size than the Directory tells\n"),
        (TRUNCATED, _) => push_offset(text, b", which ends at offset ", offset),
        _ => push_offset(text, b", wrong at offset ", offset),
    }
}

fn push_offset(text: &mut Text, word: &[u8], offset: u16) {
    text.push(word);
    text.push_number(u32::from(offset));
    text.push(b" from its tag\n");
}

// The package that an entry names.
fn push_home(text: &mut Text, package: &[u8]) {
    if package.is_empty() {
        text.push(b": a package that is not imported");
        return;
    }
    text.push(b": package ");
    text.push_hex(package);
}

// The name of a class of the platform.
fn push_class_name(text: &mut Text, named: Option<PlatformClass>) {
    if let Some(named) = named {
        text.push(b" (");
        text.push(named.name());
        text.push(b")");
    }
}

// The class of the platform that has a token in a package with this AID, where the card has it.
fn named_class(package: &[u8], class: Option<u8>, linked: &Linked) -> Option<PlatformClass> {
    let platform = linked.platform();
    let home = platform.package_with_aid(package)?;
    platform.class_by_token(home, class?)
}

fn token_of(member: Option<Member>) -> Option<u8> {
    Some(member?.token)
}

// The name that the map has of what the entry names, in a line that states the entry, the package, the class and the member's token.
fn name_in_map<'a>(
    entry: u16,
    package: &[u8],
    class: Option<u8>,
    member: Option<Member>,
    asked: &Asked<'a>,
) -> Result<Option<&'a [u8]>, AllocError> {
    let Some(class) = class else {
        return Ok(None);
    };
    let mut head = Text::new(asked.alloc);
    head.push(b"entry ");
    head.push_number(u32::from(entry));
    head.push(b" ");
    head.push_hex(package);
    push_token(&mut head, b" ", Some(class));
    push_token(&mut head, b" ", token_of(member));
    head.push(b": ");
    Ok(entry_name(asked.map, &head.into_bytes()?))
}

fn push_name(text: &mut Text, name: &[u8]) {
    text.push(b": ");
    text.push(name);
}

fn push_method(
    text: &mut Text,
    named: Option<PlatformClass>,
    member: Option<Member>,
    linked: &Linked,
) {
    if let Some(method) = named_method(named, member, linked) {
        text.push(b": ");
        push_platform_method(text, method);
    }
}

// The method of the platform that has this kind and token in a class, where the card has it. It is one of an interface, which is
// called by its class alone, or one that the superclass of the class lacks.
fn named_method(
    named: Option<PlatformClass>,
    member: Option<Member>,
    linked: &Linked,
) -> Option<PlatformMethod> {
    let (class, member) = (named?, member?);
    let kind = match member.kind {
        MemberKind::StaticMethod => MethodKind::Static,
        MemberKind::VirtualMethod if class.is_interface() => MethodKind::Interface,
        MemberKind::VirtualMethod => MethodKind::Virtual,
        MemberKind::Field | MemberKind::PackageVisibleMethod => return None,
    };
    linked.platform().method_by_token(class, kind, member.token)
}

fn push_entry(text: &mut Text, entry: u16) {
    if entry == NO_ENTRY {
        text.push(b"  a class");
        return;
    }
    text.push(b"  entry ");
    text.push_number(u32::from(entry));
}

fn push_token(text: &mut Text, word: &[u8], token: Option<u8>) {
    if let Some(token) = token {
        text.push(word);
        text.push_number(u32::from(token));
    }
}
