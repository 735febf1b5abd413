//! Contexts, and what the firewall has to know of an object.
ghost use Rattle.std.specs.Prelude.{◌≡◌};
ghost use Rattle.jc_firewall.specs.Situation.{is_live_transient, is_entry_point, is_global_array, is_own, may_be_stored, same_context};

/// A context (runtime environment specification, contexts and context switching).
#[derive(Clone, Copy)]
pub enum Context {
    /// The context of the runtime environment, the JCRE. Also what stands for the selected applet's context
    /// while no applet is selected.
    Jcre,
    /// The one that all applets of the package with this number share.
    Package(u8),
}

impl Context {
    /// Whether the two are one context.
    pub const fn is(self, other: Context) -> bool
        ensures { result ≡ same_context self other }
    {
        match (self, other) {
            (Context::Jcre, Context::Jcre) => true,
            (Context::Package(p), Context::Package(q)) => p == q,
            _ => false,
        }
    }
}

/// What the runtime environment lets others do with an object of its own.
#[derive(Clone, Copy)]
pub enum Designation {
    /// Nothing beyond the rules: each object that an applet or a package owns, and others of the JCRE.
    Ordinary,
    /// A permanent JCRE entry point object, such as an `AID`: its methods may be called, and references to it kept.
    PermanentEntryPoint,
    /// A temporary JCRE entry point object, such as the `APDU` object and the JCRE's exceptions: its methods may
    /// be called, but references to it not kept.
    TemporaryEntryPoint,
    /// A global array, such as the APDU buffer: all contexts read and write it, but references to it may not be kept.
    GlobalArray,
}

/// The object that is accessed.
#[derive(Clone, Copy)]
pub struct Subject {
    /// The context of its owner.
    pub owner: Context,
    pub designation: Designation,
    /// Its class has an interface that extends `Shareable`, itself or by a superclass.
    pub has_shareable_interface: bool,
    /// It is an array that is cleared as its applet is deselected (`CLEAR_ON_DESELECT`).
    pub is_clear_on_deselect: bool,
}

impl Subject {
    pub(crate) const fn is_entry_point(self) -> bool
        ensures { result ≡ is_entry_point self }
    {
        match self.designation {
            Designation::PermanentEntryPoint | Designation::TemporaryEntryPoint => true,
            Designation::Ordinary | Designation::GlobalArray => false,
        }
    }

    pub(crate) const fn is_global_array(self) -> bool
        ensures { result ≡ is_global_array self }
    {
        match self.designation {
            Designation::GlobalArray => true,
            _ => false,
        }
    }

    /// References to it may be kept.
    pub(crate) const fn may_be_stored(self) -> bool
        ensures { result ≡ may_be_stored self }
    {
        match self.designation {
            Designation::Ordinary | Designation::PermanentEntryPoint => true,
            Designation::TemporaryEntryPoint | Designation::GlobalArray => false,
        }
    }
}

/// What an access is judged by.
#[derive(Clone, Copy)]
pub struct Situation {
    /// The active context.
    pub active: Context,
    /// The context of the selected applet.
    pub selected: Context,
    /// The object that is accessed.
    pub object: Subject,
}

impl Situation {
    /// The object's owner is in the active context.
    pub(crate) const fn is_own(self) -> bool
        ensures { result ≡ is_own self }
    {
        self.object.owner.is(self.active)
    }

    /// The object is not an array that is cleared as its applet is deselected, or an applet of the active context
    /// is selected.
    pub(crate) const fn is_live_transient(self) -> bool
        ensures { result ≡ is_live_transient self }
    {
        !self.object.is_clear_on_deselect || self.selected.is(self.active)
    }
}
