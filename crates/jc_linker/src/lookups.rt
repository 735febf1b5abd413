//! What packages hold, by number, index and offset.
ghost use Rattle.std.specs.Prelude.{◌≡◌, ◌<◌, ◌≤◌, IfSome, length, option_copied, position};
ghost use Rattle.std.specs.Option.{option_map};
ghost use Rattle.std.specs.Str.{bytes_eq};
ghost use Rattle.jc_linker.specs.Classes.{package_in};
ghost use Rattle.jc_linker.specs.Lookups.{aid_at, applet_entry, code_at, entry_at, entry_with_aid, package_with_aid, methods_of, statics_at, target_at};

use crate::linked::Linked;
use crate::target::Target;

impl Linked {
    /// What an entry of a package's constant pool resolves to; none only past the pool's end.
    #[inline(always)]
    #[tactic(auto, unfolding(crate::specs::Lookups::target_at))]
    pub fn target_at(&self, package_number: u8, index: u16) -> Option<&Target>
        ensures { option_copied result ≡ target_at self.entry.now package_number index }
    {
        self.package(package_number)?.targets.get(index as usize)
    }

    /// The bytes of a package's Method component from an offset on.
    #[tactic(auto, unfolding(crate::specs::Lookups::code_at))]
    pub fn code_at(&self, package_number: u8, offset: u16) -> &[u8]
        requires { offset ≤ length (methods_of (package_in self.now package_number)) }
        ensures { result.now ≡ code_at self.entry.now package_number offset }
    {
        match self.package(package_number) {
            Some(package) => &package.methods[offset as usize..],
            None => &[],
        }
    }

    /// The AID of a package that was loaded; no bytes where there is no such package.
    #[tactic(auto, unfolding(crate::specs::Lookups::aid_at))]
    pub fn aid_at(&self, package_number: u8) -> &[u8]
        ensures { result.now ≡ aid_at self.entry.now package_number }
    {
        match self.package(package_number) {
            Some(package) => &package.name.aid,
            None => &[],
        }
    }

    /// The size of a package's static image in bytes, and how many references it begins with.
    #[tactic(auto, unfolding(crate::specs::Lookups::statics_at))]
    pub fn statics_at(&self, package_number: u8) -> (u16, u16)
        ensures { result ≡ statics_at self.now package_number }
    {
        match self.package(package_number) {
            Some(package) => (package.image_size, package.image_references),
            None => (0, 0),
        }
    }

    /// Where the install method of the first applet with this AID stands in a package.
    #[tactic(auto, unfolding(crate::specs::Lookups::entry_at))]
    pub fn entry_at(&self, package_number: u8, aid: &[u8]) -> Option<u16>
        ensures { result ≡ entry_at self.now package_number aid.now }
    {
        self.package(package_number)?.install_offset(aid)
    }

    /// The AID of the entry with this number in a package's Applet component.
    #[tactic(auto, unfolding(crate::specs::Lookups::applet_entry))]
    pub fn applet_aid(&self, package_number: u8, entry: u8) -> Option<&[u8]>
        ensures { option_copied result ≡ option_map (λ a. a.aid)
            (applet_entry self.entry.now package_number entry) }
    {
        let package = self.package(package_number)?;
        Some(package.applets.get(entry as usize)?.aid.as_slice())
    }

    /// Where the install method of the entry with this number in a package's Applet component stands.
    #[tactic(auto, unfolding(crate::specs::Lookups::applet_entry))]
    pub fn install_at(&self, package_number: u8, entry: u8) -> Option<u16>
        ensures { result ≡ option_map (λ a. a.install_offset)
            (applet_entry self.now package_number entry) }
    {
        let package = self.package(package_number)?;
        Some(package.applets.get(entry as usize)?.install_offset)
    }

    /// The number of the first entry with this AID in a package's Applet component.
    #[tactic(auto, unfolding(crate::specs::Lookups::entry_with_aid))]
    pub fn entry_with_aid(&self, package_number: u8, aid: &[u8]) -> Option<u8>
        ensures { result ≡ entry_with_aid self.now package_number aid.now }
    {
        let package = self.package(package_number)?;
        let entry = package.entry_with_aid(aid)?;
        if entry < 256 { Some(entry as u8) } else { None }
    }

    /// The number of the package with this AID.
    #[tactic(auto, unfolding(crate::specs::Lookups::package_with_aid))]
    pub fn package_with_aid(&self, aid: &[u8]) -> Option<u8>
        ensures { result ≡ package_with_aid self.now aid.now }
    {
        if let Some(named) = self.platform.package_with_aid(aid) {
            return Some(self.platform.number(named));
        }
        let place = self.package_index(aid)?;
        Some(place as u8 + 1)
    }

    // The place of the first loaded package with this AID.
    fn package_index(&self, aid: &[u8]) -> Option<usize>
        ensures place { result ≡ position (λ q. bytes_eq q.name.aid aid.now) self.now.loaded }
        ensures few { IfSome result (λ place. place < 32) }
    {
        self.loaded
            .iter()
            .position(|package| package.name.aid.as_slice() == aid)
    }
}
