//! An open load.
ghost use Rattle.std.specs.Prelude.{◌≡◌, ◌⊎◌, ◌<◌, length};
ghost use Rattle.jc_cap.specs.Texts.{taken};
ghost use Rattle.jc_cap.specs.Reading.{ParsesAs};
ghost use Rattle.jc_packages.specs.Load.{empty_load, component_begin, component_end, component_append, is_tag, without_memory, command_result};
ghost use Rattle.jc_packages.specs.Load.{content_in, format_for, taken_behind};

use crate::incoming::IncomingComponent;
use crate::load_refusal::LoadRefusal;
use jc_cap::fault::CapFault;
use jc_cap::formats::Format;
use jc_cap::tags;
use jc_cap::texts::LoadedComponents;
use std::alloc::Global;

/// How many tags there are.
const ALL_TAGS: usize = 256;

/// A load that is open: the format that its header stated, if that came, the components that came and are used, by each tag
/// whether its component came, and the component that is coming.
#[derive(Drop)]
pub struct OpenLoad {
    pub format: Option<Format>,
    pub texts: LoadedComponents,
    pub came: [bool; ALL_TAGS],
    pub coming: Option<IncomingComponent>,
}

impl OpenLoad {
    /// No component has come yet.
    #[tactic(auto, unfolding(crate::specs::Load::empty_load))]
    pub fn new() -> OpenLoad
        ensures { result ≡ empty_load }
    {
        OpenLoad {
            format: None,
            texts: LoadedComponents::new(),
            came: [false; ALL_TAGS],
            coming: None,
        }
    }

    /// A component begins.
    pub fn begin_component(&mut self, alloc: Global, tag: u8) -> Result<(), LoadRefusal>
        ensures { command_result result self.new ≡ component_begin tag self.old }
    {
        if self.coming.is_some() {
            return Err(LoadRefusal::OutOfSequence);
        }
        if !is_tag(tag) {
            return Err(LoadRefusal::UnknownTag);
        }
        if self.came[tag as usize] {
            return Err(LoadRefusal::BadComponents(CapFault::Repeated(tag)));
        }
        self.coming = Some(IncomingComponent::new(alloc, tag));
        Ok(())
    }

    /// More bytes of the component that is open. Where they can be taken memory is asked for, and where that is
    /// refused, none are.
    pub fn append(&mut self, more: &[u8]) -> Result<(), LoadRefusal>
        ensures { (command_result result self.new ≡ component_append more.now self.old)
            ⊎ (command_result result self.new
            ≡ without_memory self.old (component_append more.now self.old)) }
    {
        match &mut self.coming {
            Some(coming) => coming.append(more),
            None => Err(LoadRefusal::OutOfSequence),
        }
    }

    /// The component that is open ends: it is read and kept, or dropped.
    pub fn end_component(&mut self) -> Result<(), LoadRefusal>
        ensures { command_result result self.new ≡ component_end self.old }
    {
        let Some(coming) = self.coming.take() else {
            return Err(LoadRefusal::OutOfSequence);
        };
        let tag = coming.tag();
        match take_in(self.format, &mut self.texts, tag, coming.into_bytes()) {
            Ok(format) => {
                self.format = format;
                self.came[tag as usize] = true;
                Ok(())
            }
            Err(fault) => Err(LoadRefusal::BadComponents(fault)),
        }
    }
}

// A component may have this tag.
fn is_tag(tag: u8) -> bool
    ensures { result ≡ is_tag tag }
{
    tag >= tags::HEADER && tag <= tags::DEBUG || tag >= tags::FIRST_CUSTOM
}

// The format in which a component with this tag is read: a Directory and a Class component in the one that the header stated;
// before one came they are refused.
fn format_for(told: Option<Format>, tag: u8) -> Result<Format, CapFault>
    ensures { ParsesAs (λ x. x) result (format_for told tag) }
{
    match told {
        Some(format) => Ok(format),
        None => {
            if tag == tags::DIRECTORY || tag == tags::CLASS {
                return Err(CapFault::Missing(tags::HEADER));
            }
            Ok(Format::V2_1)
        }
    }
}

/// Reads a component, and keeps it with the others. The format is the one that the header stated, if it came; the answer is the
/// one that is known after it. Where the component cannot be read nothing is kept.
pub(crate) fn take_in(
    told: Option<Format>,
    texts: &mut LoadedComponents,
    tag: u8,
    bytes: Vec<u8>,
) -> Result<Option<Format>, CapFault>
    requires small { length bytes.items < 65539 }
    ensures { taken result texts.new ≡ taken_behind told texts.old tag bytes.items
        (content_in told tag bytes.items) }
{
    let format = format_for(told, tag)?;
    match texts.take(format, tag, bytes)? {
        Some(format) => Ok(Some(format)),
        None => Ok(told),
    }
}
