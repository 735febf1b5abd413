//! What the components of a package say.
ghost use Rattle.std.specs.Prelude.{◌≡◌, Ok};
ghost use Rattle.jc_cap.specs.Reading.{ParsesAs};
ghost use Rattle.jc_cap.specs.Contents.{PackageContents};
ghost use Rattle.jc_cap.specs.ComponentReading.{applets_in, exports_in};
ghost use Rattle.jc_cap.specs.PackageReading.{contents_of};
ghost use Rattle.jc_cap.specs.Views.{package_contents};

use crate::applets::Applets;
use crate::classes::Classes;
use crate::component::{AppletComponent, ExportComponent};
use crate::directory::Directory;
use crate::exports::Exports;
use crate::fault::CapFault;
use crate::header::Header;
use crate::imports::Imports;
use crate::methods::Methods;
use crate::pool::ConstantPool;
use crate::statics::StaticFields;
use crate::texts::PackageBytes;

/// What the components of a package say. It is lent from their bytes.
#[derive(Drop)]
pub struct Contents<'a> {
    pub header: Header<'a>,
    pub directory: Directory<'a>,
    pub applets: Option<Applets<'a>>,
    pub imports: Imports<'a>,
    pub pool: ConstantPool<'a>,
    pub classes: Classes<'a>,
    pub methods: Methods<'a>,
    pub statics: StaticFields<'a>,
    pub exports: Option<Exports<'a>>,
}

fn applets_in(component: &Option<AppletComponent>) -> Option<Applets<'_>>
    ensures { applets_in component.now ≡ Ok result }
{
    match component {
        None => None,
        Some(component) => Some(component.applets()),
    }
}

fn exports_in(component: &Option<ExportComponent>) -> Option<Exports<'_>>
    ensures { exports_in component.now ≡ Ok result }
{
    match component {
        None => None,
        Some(component) => Some(component.exports()),
    }
}

/// What the components say. They are found again in the bytes. A fault is only where the Directory or the Class component was
/// read in another format than the header's, in which it cannot be read.
#[tactic(auto, unfolding(crate::specs::PackageReading::contents_of))]
pub(crate) fn contents_of(texts: &PackageBytes) -> Result<Contents<'_>, CapFault>
    ensures { ParsesAs package_contents result (contents_of texts.now) }
{
    let header = texts.header.header();
    let directory = texts.directory.directory(header.format)?;
    let applets = applets_in(&texts.applets);
    let imports = texts.imports.imports();
    let pool = texts.pool.pool();
    let classes = texts.classes.classes(header.format)?;
    let methods = texts.methods.methods();
    let statics = texts.statics.statics();
    let exports = exports_in(&texts.exports);
    Ok(Contents {
        header,
        directory,
        applets,
        imports,
        pool,
        classes,
        methods,
        statics,
        exports,
    })
}
