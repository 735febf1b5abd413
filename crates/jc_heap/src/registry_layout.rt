//! Where the words of an applet stand in the registry: the one place that says it.
ghost use Rattle.std.specs.Prelude.{◌≡◌, ◌<◌};
ghost use Rattle.jc_words.specs.Layout.{most_applets};
ghost use Rattle.jc_heap.specs.RegistryLayout.{entry_start};

/// How many words the registry has for each applet.
const ENTRY_LENGTH: u16 = 3;

/// Of these words, the one with the address of the AID object.
pub const ENTRY_AID: u16 = 0;

/// The one with the number of the package.
pub const ENTRY_PACKAGE: u16 = 1;

/// The one with the address of the instance.
pub const ENTRY_INSTANCE: u16 = 2;

/// The first word of an applet, counted from the registry's first word. The first applet is 0.
#[inline(always)]
pub const fn entry_start(applet: u16) -> u16
    requires { applet < most_applets }
    ensures { result ≡ entry_start applet }
{
    ENTRY_LENGTH * applet
}
