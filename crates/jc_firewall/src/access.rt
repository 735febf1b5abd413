//! What code does to an object, and the rules that judge it.
ghost use Rattle.std.specs.Prelude.{◌≡◌};
ghost use Rattle.jc_firewall.specs.Table.{number_of};

/// An access (runtime environment specification, access to objects).
#[derive(Clone, Copy)]
pub enum Access {
    /// To a static field.
    StaticField,
    /// To an array's elements or its length.
    ArrayElement,
    /// To an instance field, or to the receiver of `invokespecial`.
    InstanceField,
    /// A virtual method is called on the object.
    VirtualCall,
    /// A method of an interface is called on it that does not extend `Shareable`.
    StandardInterfaceCall,
    /// A method of an interface is called on it that extends `Shareable`.
    ShareableInterfaceCall,
    /// It is thrown.
    Throw,
    /// `checkcast` or `instanceof` against a class or an array type.
    CastToClass,
    /// `checkcast` or `instanceof` against an interface that does not extend `Shareable`.
    CastToStandardInterface,
    /// `checkcast` or `instanceof` against an interface that extends `Shareable`.
    CastToShareableInterface,
    /// A reference to the object is stored, in a static field, an instance field or an array.
    StoreReference,
}

/// A rule of the firewall.
#[derive(Clone, Copy)]
pub enum Rule {
    StaticFields,
    Arrays,
    InstanceFields,
    VirtualCalls,
    StandardInterfaceCalls,
    ShareableInterfaceCalls,
    Throws,
    Casts,
    StoredReferences,
    ClearOnDeselectArrays,
}

impl Rule {
    /// Its number in lists of the rules, from 1 to 10.
    pub const fn number(self) -> u8
        ensures { result ≡ number_of self }
    {
        match self {
            Rule::StaticFields => 1,
            Rule::Arrays => 2,
            Rule::InstanceFields => 3,
            Rule::VirtualCalls => 4,
            Rule::StandardInterfaceCalls => 5,
            Rule::ShareableInterfaceCalls => 6,
            Rule::Throws => 7,
            Rule::Casts => 8,
            Rule::StoredReferences => 9,
            Rule::ClearOnDeselectArrays => 10,
        }
    }
}
