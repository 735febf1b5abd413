//! Loaded packages.
ghost use Rattle.std.specs.Prelude.{◌≡◌, ◌<◌, ◌==◌, [], IfSome, find, option_copied, position};
ghost use Rattle.jc_linker.specs.Resolve.{class_index};
ghost use Rattle.std.specs.Option.{option_map};
ghost use Rattle.std.specs.Str.{bytes_eq};

use crate::class::LinkedClass;
use crate::target::Target;
use std::alloc::Global;
use std::marker::Model;

/// The name of a package.
#[derive(Drop)]
pub struct PackageName {
    pub minor_version: u8,
    pub major_version: u8,
    pub aid: Vec<u8>,
}

impl Model for PackageName {
    ghost use Rattle.jc_cap.specs.Packages.{NamedPackage};

    ghost Value = { NamedPackage };

    ghost view = { λ n. record {
      minor_version = n.minor_version;
      major_version = n.major_version;
      aid = n.aid.items;
    } };
}

/// A class that a package exports.
#[derive(Drop)]
pub struct ExportedClass {
    pub class_offset: u16,
    pub field_offsets: Vec<u16>,
    pub method_offsets: Vec<u16>,
}

impl Model for ExportedClass {
    ghost use Rattle.jc_linker.specs.Values.{Export};

    ghost Value = { Export };

    ghost view = { λ e. record {
      class_offset = e.class_offset;
      field_offsets = e.field_offsets.items;
      method_offsets = e.method_offsets.items;
    } };
}

/// An applet that a package has.
#[derive(Drop)]
pub struct Applet {
    pub aid: Vec<u8>,
    pub install_offset: u16,
}

impl Model for Applet {
    ghost use Rattle.jc_linker.specs.Values.{AppletEntry};

    ghost Value = { AppletEntry };

    ghost view = { λ a. record { aid = a.aid.items; install_offset = a.install_offset } };
}

/// A loaded package.
#[derive(Drop)]
pub struct LinkedPackage {
    pub name: PackageName,
    /// The numbers of the packages that it imports, by token.
    pub imports: Vec<u8>,
    pub classes: Vec<LinkedClass>,
    pub exports: Vec<ExportedClass>,
    pub targets: Vec<Target>,
    /// The Method component.
    pub methods: Vec<u8>,
    pub image_size: u16,
    pub image_references: u16,
    pub applets: Vec<Applet>,
}

impl Model for LinkedPackage {
    ghost use Rattle.std.specs.Prelude.{◌≤◌, length};
    ghost use Rattle.jc_linker.specs.Values.{PackageValue};

    ghost Value = { PackageValue };

    ghost view = { λ q. record {
      name = q.name;
      imports = q.imports.items;
      classes = q.classes.items;
      exports = q.exports.items;
      targets = q.targets.items;
      methods =
          q.methods.items;
      image_size = q.image_size;
      image_references = q.image_references;
      applets =
          q.applets.items;
    } };

    ghost invariant = { λ q. length q.classes.items ≤ 256 };
}

impl LinkedPackage {
    /// A package with nothing in it.
    pub(crate) fn empty(alloc: Global) -> LinkedPackage
        ensures { result.targets ≡ [] }
    {
        LinkedPackage {
            name: PackageName {
                minor_version: 0,
                major_version: 0,
                aid: Vec::new(alloc),
            },
            imports: Vec::new(alloc),
            classes: Vec::new(alloc),
            exports: Vec::new(alloc),
            targets: Vec::new(alloc),
            methods: Vec::new(alloc),
            image_size: 0,
            image_references: 0,
            applets: Vec::new(alloc),
        }
    }

    /// The number of the class whose record stands at an offset.
    #[tactic(auto, unfolding(crate::specs::Resolve::class_index))]
    pub fn class_index(&self, offset: u16) -> Option<u8>
        ensures { result ≡ class_index offset self.now.classes }
    {
        let index = self.class_position(offset)?;
        Some(index as u8)
    }

    fn class_position(&self, offset: u16) -> Option<usize>
        ensures place { result ≡ position (λ c. c.offset == offset) self.now.classes }
        ensures few { IfSome result (λ place. place < 256) }
    {
        self.classes.iter().position(|class| class.offset == offset)
    }

    /// Where the install method of the first applet with this AID stands.
    pub fn install_offset(&self, aid: &[u8]) -> Option<u16>
        ensures { result ≡ option_map (λ a. a.install_offset)
            (find (λ a. bytes_eq a.aid aid.now) self.now.applets) }
    {
        Some(self.applet(aid)?.install_offset)
    }

    /// The number of the first applet with this AID.
    pub fn entry_with_aid(&self, aid: &[u8]) -> Option<usize>
        ensures { result ≡ position (λ a. bytes_eq a.aid aid.now) self.now.applets }
    {
        self.applets
            .iter()
            .position(|applet| applet.aid.as_slice() == aid)
    }

    fn applet(&self, aid: &[u8]) -> Option<&Applet>
        ensures { option_copied result ≡ find (λ a. bytes_eq a.aid aid.now) self.now.applets }
    {
        self.applets
            .iter()
            .find(|applet| applet.aid.as_slice() == aid)
    }
}
