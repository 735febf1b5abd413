//! Notes of why a load is refused, for whoever asks why.
ghost use Rattle.std.specs.Prelude.{◌<◌, ◌≤◌, ◌≡◌, false, length, IfOk};

use crate::load::OpenLoad;
use crate::load_refusal::LoadRefusal;
use crate::record_contents::RecordContents;
use jc_cap::assembling::Package;
use jc_cap::class_refs::ClassRef;
use jc_cap::component::Component;
use jc_cap::contents::Contents;
use jc_cap::fault::CapFault;
use jc_cap::formats::Format;
use jc_cap::packages::PackageInfo;
use jc_cap::pool::{Entry, StaticRef, VirtualToken};
use jc_cap::tags;
use jc_cap::texts::LoadedComponents;
use jc_heap::layout::HEADER;
use jc_linker::fault::LinkFault;
use jc_linker::linked::Linked;
use jc_memory::{Member, MemberKind, Memory, Notes, RefusedLoad, Shortage, Space};
use jc_words::WordStore;
use std::alloc::{AllocError, Global};

/// In place of the number of an entry where none is meant.
const NO_ENTRY: u16 = 65_535;

// The first bytes of a component.
fn beginning(alloc: Global, bytes: &[u8], count: usize) -> Result<Vec<u8>, AllocError>
    ensures { IfOk result (λ copy. length copy.items ≤ length bytes.now) }
{
    Vec::from_slice(alloc, &bytes[..count.min(bytes.len())])
}

// The size that a beginning states becomes that of its own info.
fn tell_own_size(component: &mut Vec<u8>)
    ensures { length component.new.items ≡ length component.old.items }
{
    let length = component.len();
    if length >= 3 {
        let size = length - 3;
        component[1] = (size / 256 % 256) as u8;
        component[2] = (size % 256) as u8;
    }
}

// Whether a component that begins with these bytes may still be right.
fn may_go_on(
    alloc: Global,
    format: Format,
    tag: u8,
    bytes: &[u8],
    count: usize,
) -> Result<bool, AllocError>
    requires small { length bytes.now < 65539 }
{
    let mut copy = beginning(alloc, bytes, count)?;
    tell_own_size(&mut copy);
    Ok(match LoadedComponents::new().take(format, tag, copy) {
        Ok(_) | Err(CapFault::Truncated) => true,
        Err(_) => false,
    })
}

// How many of a component's first bytes may still be right. Of two beginnings the longer one is right only where the shorter is.
fn right_beginning(alloc: Global, format: Format, tag: u8, bytes: &[u8]) -> Result<u16, AllocError>
    requires small { length bytes.now < 65539 }
{
    let mut right = 0;
    let mut step = 0x8000_u16;
    for _halving in 0..16 {
        let longer = right | step;
        if usize::from(longer) <= bytes.len()
            && may_go_on(alloc, format, tag, bytes, usize::from(longer))?
        {
            right = longer;
        }
        step /= 2;
    }
    Ok(right)
}

impl OpenLoad {
    /// Notes of the component that is open where it can no longer be right, if it is not. Nothing is noted where memory is
    /// refused.
    pub fn note_component(&self, alloc: Global, notes: &Notes) {
        let Some(coming) = &self.coming else {
            return;
        };
        let (tag, bytes) = (coming.tag(), coming.bytes());
        if self.format.is_none() && (tag == tags::DIRECTORY || tag == tags::CLASS) {
            notes.refused_load(RefusedLoad::Component {
                tag: tags::HEADER,
                offset: 0,
            });
            return;
        }
        let format = self.format.unwrap_or(Format::V2_1);
        let Ok(copy) = beginning(alloc, bytes, bytes.len()) else {
            return;
        };
        if LoadedComponents::new().take(format, tag, copy).is_ok() {
            return;
        }
        if let Ok(offset) = right_beginning(alloc, format, tag, bytes) {
            notes.refused_load(RefusedLoad::Component { tag, offset });
        }
    }
}

// What an entry of a pool names: the token of an imported package, of a class there, and a field or method.
struct Named {
    package_token: Option<u8>,
    class: Option<u8>,
    member: Option<Member>,
}

fn named_class(class: ClassRef, member: Option<Member>) -> Named {
    match class {
        ClassRef::Internal(_) => Named {
            package_token: None,
            class: None,
            member,
        },
        ClassRef::External {
            package_token,
            class_token,
        } => Named {
            package_token: Some(package_token),
            class: Some(class_token),
            member,
        },
    }
}

fn named_static(kind: MemberKind, place: StaticRef) -> Named {
    match place {
        StaticRef::Internal(_) => Named {
            package_token: None,
            class: None,
            member: None,
        },
        StaticRef::External {
            package_token,
            class_token,
            token,
        } => Named {
            package_token: Some(package_token),
            class: Some(class_token),
            member: Some(Member { kind, token }),
        },
    }
}

fn method_of(token: VirtualToken) -> Member {
    match token {
        VirtualToken::Public(token) => Member {
            kind: MemberKind::VirtualMethod,
            token,
        },
        VirtualToken::PackageVisible(token) => Member {
            kind: MemberKind::PackageVisibleMethod,
            token,
        },
    }
}

fn field_of(token: u8) -> Member {
    Member {
        kind: MemberKind::Field,
        token,
    }
}

fn named_by(entry: Entry) -> Named {
    match entry {
        Entry::Class(class) => named_class(class, None),
        Entry::InstanceField { class, token } => named_class(class, Some(field_of(token))),
        Entry::VirtualMethod { class, token } | Entry::SuperMethod { class, token } => {
            named_class(class, Some(method_of(token)))
        }
        Entry::StaticField(place) => named_static(MemberKind::Field, place),
        Entry::StaticMethod(place) => named_static(MemberKind::StaticMethod, place),
    }
}

// The AID of the package that an entry names: an imported one, or the package's own.
fn package_named<'a>(contents: &Contents<'a>, package_token: Option<u8>) -> &'a [u8] {
    match package_token {
        None => contents.header.this_package.aid,
        Some(token) if token < contents.imports.count() => contents.imports.get(token).aid,
        Some(_) => &[],
    }
}

// The size of the info of a component with these bytes: tag and size stand before it.
fn size_of_info(bytes: &[u8]) -> usize {
    bytes.len().saturating_sub(3)
}

// The size of a component's info; 0 where it did not come.
fn info_size<const TAG: u8>(component: &Option<Component<TAG>>) -> usize {
    match component {
        Some(component) => size_of_info(component.bytes()),
        None => 0,
    }
}

// The size of the Class component's info; 0 where it did not come.
fn size_of_classes(load: &LoadedComponents) -> usize {
    match &load.classes {
        Some(classes) => size_of_info(classes.bytes()),
        None => 0,
    }
}

// The size of the StaticField component's info; 0 where it did not come.
fn size_of_statics(load: &LoadedComponents) -> usize {
    match &load.statics {
        Some(statics) => size_of_info(statics.bytes()),
        None => 0,
    }
}

// The size of the component with a tag that the Directory is compared with; none where it is not.
fn size_that_came(load: &LoadedComponents, tag: u8) -> Option<usize> {
    match tag {
        tags::HEADER => Some(info_size(&load.header)),
        tags::DIRECTORY => Some(info_size(&load.directory)),
        tags::APPLET => Some(info_size(&load.applets)),
        tags::IMPORT => Some(info_size(&load.imports)),
        tags::CONSTANT_POOL => Some(info_size(&load.pool)),
        tags::CLASS => Some(size_of_classes(load)),
        tags::METHOD => Some(info_size(&load.methods)),
        tags::STATIC_FIELD => Some(size_of_statics(load)),
        tags::EXPORT => Some(info_size(&load.exports)),
        tags::REFERENCE_LOCATION => Some(usize::from(load.reference_location?)),
        tags::DESCRIPTOR => Some(usize::from(load.descriptor?)),
        _ => None,
    }
}

// The size that the Directory states of the component with a tag.
fn size_that_is_told(load: &LoadedComponents, tag: u8) -> Option<usize> {
    let Some(directory) = &load.directory else {
        return None;
    };
    let bytes = directory.bytes();
    let at = 1 + 2 * usize::from(tag);
    let high = *bytes.get(at)?;
    let low = *bytes.get(at + 1)?;
    Some(usize::from(u16::from_be_bytes([high, low])))
}

// Whether the Directory states another size of the component with a tag than came.
fn disagrees(load: &LoadedComponents, tag: u8) -> bool {
    match (size_that_came(load, tag), size_that_is_told(load, tag)) {
        (Some(came), Some(told)) => came != told,
        _ => false,
    }
}

/// Notes the first component of which the Directory states another size, if there is one.
#[cold]
#[inline(never)]
pub(crate) fn note_sizes(load: &LoadedComponents, notes: &Notes) {
    for tag in tags::HEADER..tags::DEBUG {
        if disagrees(load, tag) {
            notes.refused_load(RefusedLoad::Component { tag, offset: 0 });
            return;
        }
    }
}

/// Notes which component did not come, where that is why the package was refused.
#[cold]
#[inline(never)]
pub(crate) fn note_missing(fault: CapFault, notes: &Notes) {
    if let CapFault::Missing(tag) = fault {
        notes.refused_load(RefusedLoad::Component { tag, offset: 0 });
    }
}

// Notes the first imported package that is not there.
fn note_absent_import(contents: &Contents<'_>, linked: &Linked, notes: &Notes) {
    for token in 0..contents.imports.count() {
        let import = contents.imports.get(token);
        if linked.package_with_aid(import.aid).is_none() {
            notes.refused_load(RefusedLoad::of_entry(NO_ENTRY, import.aid, None, None));
            return;
        }
    }
}

// Whether a package is one of the platform, whose version fits.
fn fits_platform(import: PackageInfo<'_>, linked: &Linked) -> Option<bool> {
    let platform = linked.platform();
    let named = platform.package_with_aid(import.aid)?;
    Some(match platform.version(named) {
        Some(version) => {
            import.major_version == version.major && import.minor_version <= version.minor
        }
        None => false,
    })
}

// Notes the imported package that has another version: the first of the platform's whose version does not fit; else the package
// that was loaded, where one alone was. Of several nothing is noted.
fn note_other_version(contents: &Contents<'_>, linked: &Linked, notes: &Notes) {
    let mut loaded = None;
    let mut count = 0u16;
    for token in 0..contents.imports.count() {
        let import = contents.imports.get(token);
        match fits_platform(import, linked) {
            Some(true) => {}
            Some(false) => {
                notes.refused_load(RefusedLoad::of_entry(NO_ENTRY, import.aid, None, None));
                return;
            }
            None => {
                loaded = Some(token);
                count = count.saturating_add(1);
            }
        }
    }
    if count != 1 {
        return;
    }
    if let Some(token) = loaded {
        if token < contents.imports.count() {
            let import = contents.imports.get(token);
            notes.refused_load(RefusedLoad::of_entry(NO_ENTRY, import.aid, None, None));
        }
    }
}

/// Notes which package that is imported is not there or has another version, or which entry of the pool of a package does not
/// resolve, where that is why it was refused.
#[cold]
#[inline(never)]
pub(crate) fn note_refusal(refusal: LoadRefusal, whole: &Package, linked: &Linked, notes: &Notes) {
    let LoadRefusal::LinkFailed(fault) = refusal else {
        return;
    };
    let contents = whole.contents();
    match fault {
        LinkFault::ImportMissing => note_absent_import(&contents, linked, notes),
        LinkFault::ImportVersion => note_other_version(&contents, linked, notes),
        LinkFault::Unresolved(index) => note_entry(index, &contents, notes),
        LinkFault::NoMemory => {}
    }
}

// Notes which entry of the pool does not resolve.
fn note_entry(index: u16, contents: &Contents<'_>, notes: &Notes) {
    if index >= contents.pool.count() {
        let own = package_named(contents, None);
        notes.refused_load(RefusedLoad::of_entry(index, own, None, None));
        return;
    }
    let Named {
        package_token,
        class,
        member,
    } = named_by(contents.pool.get(index));
    let package = package_named(contents, package_token);
    notes.refused_load(RefusedLoad::of_entry(index, package, class, member));
}

// Words, and this many bytes more, of which two stand in each.
fn with_bytes(words: u32, bytes: &[u8]) -> u32 {
    let more = bytes.len().div_ceil(2);
    words.saturating_add(u32::try_from(more).unwrap_or(u32::MAX))
}

// How many words a package takes: its record, and the objects of its arrays.
fn words_of(contents: &RecordContents<'_>) -> u32 {
    let mut words = 2;
    for component in &contents.components {
        words = with_bytes(words, component.info).saturating_add(2);
    }
    for array in &contents.arrays {
        let object = with_bytes(u32::from(HEADER), array.values);
        words = words.saturating_add(object).saturating_add(1);
    }
    with_bytes(words, &contents.image)
}

/// Notes how many words a package asked for that the heap has not.
#[cold]
pub(crate) fn note_full_heap<S: WordStore>(contents: &RecordContents<'_>, memory: &Memory<S>)
    requires { memory.now.heap.down ≡ false }
{
    let notes = memory.notes();
    if notes.are_kept() {
        notes.shortage(Shortage {
            space: Space::Heap,
            asked: words_of(contents),
            left: u32::from(memory.heap().free_words()),
        });
    }
}
