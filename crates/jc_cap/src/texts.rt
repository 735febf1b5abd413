//! The components of a package as they came, each of them read.
ghost use Rattle.std.specs.Prelude.{◌≡◌, ◌<◌, ◌-◌, length, IfOk, Ok};
ghost use Rattle.jc_cap.specs.Texts.{no_components, taken, taken_with, unused_taken};
ghost use Rattle.jc_cap.specs.Contents.{Content};
ghost use Rattle.jc_cap.specs.Contents as contents;
ghost use Rattle.jc_cap.specs.Component.{component_at, content_result, IsComponent};
ghost use Rattle.jc_cap.specs.ComponentReading.{classes_in, statics_in};
ghost use Rattle.jc_cap.specs.Envelope.{info_at};
ghost use Rattle.jc_cap.specs.Tags.{header_tag, class_tag, static_field_tag};

use crate::class_component::ClassComponent;
use crate::component::{
    AppletComponent, Component, ConstantPoolComponent, DirectoryComponent, ExportComponent,
    HeaderComponent, ImportComponent, MethodComponent,
};
use crate::envelope::info_of;
use crate::fault::CapFault;
use crate::formats::Format;
use crate::static_component::StaticFieldComponent;
use crate::tags;

/// The components of a package that have come, those that are used.
#[derive(Drop)]
pub struct LoadedComponents {
    pub header: Option<HeaderComponent>,
    pub directory: Option<DirectoryComponent>,
    pub applets: Option<AppletComponent>,
    pub imports: Option<ImportComponent>,
    pub pool: Option<ConstantPoolComponent>,
    pub classes: Option<ClassComponent>,
    pub methods: Option<MethodComponent>,
    pub statics: Option<StaticFieldComponent>,
    pub exports: Option<ExportComponent>,
    /// The size of the ReferenceLocation component's info, if that came.
    pub reference_location: Option<u16>,
    /// The size of the Descriptor component's info, if that came.
    pub descriptor: Option<u16>,
}

impl LoadedComponents {
    /// No component has come yet.
    pub fn new() -> LoadedComponents
        ensures { result ≡ no_components }
    {
        LoadedComponents {
            header: None,
            directory: None,
            applets: None,
            imports: None,
            pool: None,
            classes: None,
            methods: None,
            statics: None,
            exports: None,
            reference_location: None,
            descriptor: None,
        }
    }

    /// Reads the component with this tag that the bytes are, all of them: the tag, two bytes of size, and the info. It is kept in
    /// place of an earlier one, and a Header component states its format. Where it cannot be read nothing is kept.
    ///
    /// A Directory and a Class component are read in this format. The bytes are moved, and no memory is taken. Of
    /// ReferenceLocation and Descriptor the size of the info is kept, and of other components nothing.
    pub fn take(
        &mut self,
        format: Format,
        tag: u8,
        bytes: Vec<u8>,
    ) -> Result<Option<Format>, CapFault>
        requires small { length bytes.items < 65539 }
        // What is read stands in the bytes.
        ensures found { IfOk result (λ _. (x : Content) × IsComponent format tag x bytes.items) }
        // A component that the bytes are is read.
        ensures only { (x : Content) → IsComponent format tag x bytes.items
            → taken result self.new ≡ taken_with self.old tag bytes.items (Ok x) }
        // Otherwise the fault is the first one from the left.
        ensures exact { taken result self.new ≡ taken_with self.old tag bytes.items
            (component_at format tag bytes.items) }
    {
        self.take_by_tag(format, tag, bytes)
    }

    #[tactic(auto, unfolding(crate::specs::Texts::with_component))]
    fn take_by_tag(
        &mut self,
        format: Format,
        tag: u8,
        bytes: Vec<u8>,
    ) -> Result<Option<Format>, CapFault>
        requires small { length bytes.items < 65539 }
        ensures { taken result self.new ≡ taken_with self.old tag bytes.items
            (component_at format tag bytes.items) }
    {
        match tag {
            tags::HEADER => return self.take_header(format, bytes),
            tags::DIRECTORY => self.directory = Some(Component::read(format, bytes)?),
            tags::APPLET => self.applets = Some(Component::read(format, bytes)?),
            tags::IMPORT => self.imports = Some(Component::read(format, bytes)?),
            tags::CONSTANT_POOL => self.pool = Some(Component::read(format, bytes)?),
            tags::CLASS => return self.take_classes(format, bytes),
            tags::METHOD => self.methods = Some(Component::read(format, bytes)?),
            tags::STATIC_FIELD => return self.take_statics(bytes),
            tags::EXPORT => self.exports = Some(Component::read(format, bytes)?),
            _ => return self.take_unused(tag, bytes),
        }
        Ok(None)
    }

    // A Header component, which states its format.
    #[tactic(auto, unfolding(crate::specs::Texts::with_component))]
    fn take_header(&mut self, format: Format, bytes: Vec<u8>) -> Result<Option<Format>, CapFault>
        ensures { taken result self.new ≡ taken_with self.old header_tag bytes.items
            (component_at format header_tag bytes.items) }
    {
        let component = HeaderComponent::read(format, bytes)?;
        let format = component.header().format;
        self.header = Some(component);
        Ok(Some(format))
    }

    // A Class component, whose records' places are kept with it.
    #[tactic(auto, unfolding(crate::specs::Texts::with_component))]
    fn take_classes(&mut self, format: Format, bytes: Vec<u8>) -> Result<Option<Format>, CapFault>
        ensures { taken result self.new ≡ taken_with self.old class_tag bytes.items
            (content_result contents.classes (classes_in format bytes.items)) }
    {
        self.classes = Some(ClassComponent::read(format, bytes)?);
        Ok(None)
    }

    // A StaticField component, whose numbers are kept with it.
    #[tactic(auto, unfolding(crate::specs::Texts::with_component))]
    fn take_statics(&mut self, bytes: Vec<u8>) -> Result<Option<Format>, CapFault>
        ensures { taken result self.new ≡ taken_with self.old static_field_tag bytes.items
            (content_result contents.statics (statics_in bytes.items)) }
    {
        self.statics = Some(StaticFieldComponent::read(bytes)?);
        Ok(None)
    }

    // A component whose info is not looked at.
    #[tactic(auto, unfolding(crate::specs::Texts::with_size))]
    fn take_unused(&mut self, tag: u8, bytes: Vec<u8>) -> Result<Option<Format>, CapFault>
        requires small { length bytes.items < 65539 }
        ensures { taken result self.new ≡ unused_taken self.old tag bytes.items (info_at tag bytes.items) }
    {
        info_of(tag, bytes.as_slice())?;
        let size = size_of(bytes.as_slice());
        match tag {
            tags::REFERENCE_LOCATION => self.reference_location = Some(size),
            tags::DESCRIPTOR => self.descriptor = Some(size),
            _ => {}
        }
        Ok(None)
    }
}

// The size that a component's bytes state of its info.
fn size_of(bytes: &[u8]) -> u16
    requires { length bytes.now < 65539 }
    ensures { result ≡ length bytes.now - 3 }
{
    bytes.len().saturating_sub(3) as u16
}

/// The components of a package, all that it needs.
#[derive(Drop)]
pub struct PackageBytes {
    pub header: HeaderComponent,
    pub directory: DirectoryComponent,
    pub applets: Option<AppletComponent>,
    pub imports: ImportComponent,
    pub pool: ConstantPoolComponent,
    pub classes: ClassComponent,
    pub methods: MethodComponent,
    pub statics: StaticFieldComponent,
    pub exports: Option<ExportComponent>,
    /// The size of the ReferenceLocation component's info, if that came.
    pub reference_location: Option<u16>,
    /// The size of the Descriptor component's info, if that came.
    pub descriptor: Option<u16>,
}
