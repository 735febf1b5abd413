//! The access decision.
ghost use Rattle.std.specs.Prelude.{◌≡◌, if◌then◌else◌};
ghost use Rattle.jc_firewall.specs.Situation.{is_live_transient};
ghost use Rattle.jc_firewall.specs.Table.{decision, first_refusal, switches};

use crate::access::{Access, Rule};
use crate::subject::{Context, Situation, Subject};

/// What the firewall answers.
#[derive(Clone, Copy)]
pub enum Decision {
    /// The access goes on in the active context.
    Allow,
    /// The call goes on in this context, that of the object's owner, until it returns or throws.
    Switch(Context),
    /// A `SecurityException`, by this rule.
    Deny(Rule),
}

/// What the firewall answers to an access to `object` in the context `active`, where `selected` is the context of
/// the selected applet. During an installation the applet that is installed counts as selected.
#[inline]
pub const fn decide(access: Access, active: Context, selected: Context, object: Subject) -> Decision
    ensures { result ≡ decision access (record {
      active = active;
      selected = selected;
      object = object;
    }) }
{
    if active.is(Context::Jcre) {
        return Decision::Allow;
    }
    let situation = Situation {
        active,
        selected,
        object,
    };
    match first_refusal(access, situation) {
        Some(rule) => Decision::Deny(rule),
        None if is_switch(access, situation) => Decision::Switch(object.owner),
        None => Decision::Allow,
    }
}

// The first rule that refuses the access.
const fn first_refusal(access: Access, s: Situation) -> Option<Rule>
    ensures { result ≡ first_refusal access s }
{
    let own = s.is_own();
    let shared = s.object.has_shareable_interface;
    let entry = s.object.is_entry_point();
    let global = s.object.is_global_array();
    match access {
        Access::StaticField => None,
        Access::ArrayElement => object_rule(own || global, Rule::Arrays, s),
        Access::InstanceField => object_rule(own, Rule::InstanceFields, s),
        Access::VirtualCall => object_rule(own || entry || global, Rule::VirtualCalls, s),
        Access::StandardInterfaceCall => object_rule(own, Rule::StandardInterfaceCalls, s),
        Access::ShareableInterfaceCall => object_rule(
            own || shared,
            Rule::ShareableInterfaceCalls,
            s,
        ),
        Access::Throw => object_rule(own || entry, Rule::Throws, s),
        Access::CastToClass => object_rule(own || entry || global, Rule::Casts, s),
        Access::CastToStandardInterface => object_rule(own, Rule::Casts, s),
        Access::CastToShareableInterface => object_rule(own || shared, Rule::Casts, s),
        Access::StoreReference if s.object.may_be_stored() => None,
        Access::StoreReference => Some(Rule::StoredReferences),
    }
}

// This rule, where it does not allow the access, and else the one on arrays that are cleared at a deselection.
const fn object_rule(allowed: bool, rule: Rule, s: Situation) -> Option<Rule>
    ensures { result ≡ (if allowed then (if is_live_transient s then None else Some
        Rule.ClearOnDeselectArrays) else Some rule) }
{
    if !allowed {
        Some(rule)
    } else if s.is_live_transient() {
        None
    } else {
        Some(Rule::ClearOnDeselectArrays)
    }
}

// A call that goes on in its object's owner's context.
const fn is_switch(access: Access, s: Situation) -> bool
    ensures { result ≡ switches access s }
{
    match access {
        Access::VirtualCall | Access::ShareableInterfaceCall => !s.is_own(),
        _ => false,
    }
}
