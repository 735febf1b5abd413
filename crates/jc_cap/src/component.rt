//! Components that came and were read.
ghost use Rattle.std.specs.Prelude.{◌≡◌, ◌<◌, ◌^◌, length, Ok};
ghost use Rattle.jc_cap.specs.declared.formats.Format.{Format};
ghost use Rattle.jc_cap.specs.Reading.{IsReadable, ParsesAs};
ghost use Rattle.jc_cap.specs.Envelope.{info_at};
ghost use Rattle.jc_cap.specs.ComponentViews.{head};
ghost use Rattle.jc_cap.specs.MethodViews.{method_parts};
ghost use Rattle.jc_cap.specs.ComponentReading.{header_in, directory_in, imports_in, pool_in, methods_in};
ghost use Rattle.jc_cap.specs.Component.{component_at, content_at};
ghost use Rattle.jc_cap.specs.KeptComponents.{IsReadAs, Keeps, applets_told, exports_told};

use crate::applets::{Applets, read_applets};
use crate::classes::read_class;
use crate::directory::{Directory, read_directory};
use crate::envelope::{info_found_in, info_of};
use crate::exports::{Exports, read_exports};
use crate::fault::CapFault;
use crate::formats::Format;
use crate::header::{Header, read_header};
use crate::imports::{Imports, read_imports};
use crate::methods::{Methods, read_method};
use crate::pool::{ConstantPool, read_pool};
use crate::statics::read_static_field;
use crate::tags::{
    APPLET, CLASS, CONSTANT_POOL, DIRECTORY, EXPORT, HEADER, IMPORT, METHOD, STATIC_FIELD,
};
use std::marker::Model;

// Reads the info of the component with this tag.
#[tactic(auto, unfolding(crate::specs::Component::content_at))]
fn read_info(format: Format, tag: u8, info: &[u8]) -> Result<(), CapFault>
    requires { length info.now < 2 ^ 16 }
    ensures { IsReadAs result (content_at format tag info.now) }
{
    match tag {
        HEADER => {
            read_header(info)?;
            Ok(())
        }
        DIRECTORY => {
            read_directory(format, info)?;
            Ok(())
        }
        APPLET => {
            read_applets(info)?;
            Ok(())
        }
        IMPORT => {
            read_imports(info)?;
            Ok(())
        }
        CONSTANT_POOL => {
            read_pool(info)?;
            Ok(())
        }
        CLASS => {
            read_class(format, info)?;
            Ok(())
        }
        METHOD => {
            read_method(info)?;
            Ok(())
        }
        STATIC_FIELD => {
            read_static_field(info)?;
            Ok(())
        }
        EXPORT => {
            read_exports(info)?;
            Ok(())
        }
        _ => Ok(()),
    }
}

// Reads the component with this tag that the bytes are.
#[tactic(auto, unfolding(crate::specs::Component::component_at))]
fn read_whole(format: Format, tag: u8, bytes: &[u8]) -> Result<(), CapFault>
    ensures { IsReadAs result (component_at format tag bytes.now) }
{
    let info = info_of(tag, bytes)?;
    read_info(format, tag, info)
}

/// A component with this tag that was read in a format: its bytes, in which what it says is found again.
#[derive(Drop)]
pub struct Component<const TAG: u8> {
    format: Format,
    bytes: Vec<u8>,
}

impl<const TAG: u8> Model for Component<TAG> {
    ghost use Rattle.std.specs.Prelude.{ℕ, List};
    ghost use Rattle.jc_cap.specs.Reading.{IsReadable};
    ghost use Rattle.jc_cap.specs.Component.{component_at};

    ghost Value = { List ℕ };

    ghost view = { λ a. a.bytes.items };

    ghost invariant = { λ a. IsReadable (component_at a.format TAG a.bytes.items) };
}

impl<const TAG: u8> Component<TAG> {
    /// Reads the component that the bytes are in this format, and keeps them. No memory is taken.
    pub fn read(format: Format, bytes: Vec<u8>) -> Result<Component<TAG>, CapFault>
        ensures { Keeps bytes.items (component_at format TAG bytes.items) result }
    {
        read_whole(format, TAG, bytes.as_slice())?;
        Ok(Component { format, bytes })
    }

    /// The component's bytes, with its tag and its size.
    pub fn bytes(&self) -> &[u8]
        ensures { result.now ≡ self.now }
    {
        let Component { bytes, .. } = self;
        bytes.as_slice()
    }

    // Its info, which can be read.
    fn info(&self) -> &[u8]
        ensures found { info_at TAG self.now ≡ Ok result.now }
        ensures readable { (format : Format) × IsReadable (content_at format TAG result.now) }
    {
        info_found_in(TAG, self.bytes.as_slice())
    }
}

pub type HeaderComponent = Component<HEADER>;

pub type DirectoryComponent = Component<DIRECTORY>;

pub type AppletComponent = Component<APPLET>;

pub type ImportComponent = Component<IMPORT>;

pub type ConstantPoolComponent = Component<CONSTANT_POOL>;

pub type MethodComponent = Component<METHOD>;

pub type ExportComponent = Component<EXPORT>;

impl Component<HEADER> {
    /// What the package says of itself. It is found again in the bytes, without a fault.
    #[tactic(auto, using(crate::proofs::ReadAgain::of_header))]
    pub fn header(&self) -> Header<'_>
        ensures { header_in self.now ≡ Ok (head result) }
    {
        Header::found_in(self.info())
    }
}

fn directory_in(format: Format, bytes: &[u8]) -> Result<Directory<'_>, CapFault>
    ensures { ParsesAs (λ x. x) result (directory_in format bytes.now) }
{
    let info = info_of(DIRECTORY, bytes)?;
    read_directory(format, info)
}

impl Component<DIRECTORY> {
    /// What it says in this format. In the one that it was read in it is found again, without a fault; in another one it is
    /// read, which no load asks for.
    pub fn directory(&self, format: Format) -> Result<Directory<'_>, CapFault>
        ensures { ParsesAs (λ x. x) result (directory_in format self.now) }
    {
        if self.format == format {
            let info = info_found_in(DIRECTORY, self.bytes.as_slice());
            return Ok(Directory::found_in(self.format, info));
        }
        directory_in(format, self.bytes.as_slice())
    }
}

impl Component<APPLET> {
    /// The package's applets. They are found again in the bytes, without a fault.
    #[tactic(auto, using(crate::proofs::ReadAgain::of_applets))]
    pub fn applets(&self) -> Applets<'_>
        ensures { applets_told self.now ≡ Ok result }
    {
        Applets::found_in(self.info())
    }
}

impl Component<IMPORT> {
    /// The packages that the package imports. They are found again in the bytes, without a fault.
    #[tactic(auto, using(crate::proofs::ReadAgain::of_imports))]
    pub fn imports(&self) -> Imports<'_>
        ensures { imports_in self.now ≡ Ok result }
    {
        Imports::found_in(self.info())
    }
}

impl Component<CONSTANT_POOL> {
    /// The package's constant pool. It is found again in the bytes, without a fault.
    #[tactic(auto, using(crate::proofs::ReadAgain::of_pool))]
    pub fn pool(&self) -> ConstantPool<'_>
        ensures { pool_in self.now ≡ Ok result }
    {
        ConstantPool::found_in(self.info())
    }
}

impl Component<METHOD> {
    /// The package's methods. They are found again in the bytes, without a fault.
    #[tactic(auto, using(crate::proofs::ReadAgain::of_methods))]
    pub fn methods(&self) -> Methods<'_>
        ensures { methods_in self.now ≡ Ok (method_parts result) }
    {
        Methods::found_in(self.info())
    }
}

impl Component<EXPORT> {
    /// The classes that the package exports. They are found again in the bytes, without a fault.
    #[tactic(auto, using(crate::proofs::ReadAgain::of_exports))]
    pub fn exports(&self) -> Exports<'_>
        ensures { exports_told self.now ≡ Ok result }
    {
        Exports::found_in(self.info())
    }
}
