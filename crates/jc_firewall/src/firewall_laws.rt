//! What holds of every decision.
ghost use Rattle.std.specs.Prelude.{◌≡◌, ◌↔◌};
ghost use Rattle.jc_firewall.specs.declared.access.Access.{Access};
ghost use Rattle.jc_firewall.specs.declared.decide.Decision.{Decision};
ghost use Rattle.jc_firewall.specs.declared.subject.Context.{Context};
ghost use Rattle.jc_firewall.specs.declared.subject.Situation.{Situation};
ghost use Rattle.jc_firewall.specs.FirewallLaws.{IsInReach, IsSwitchOf, SetsCells};
ghost use Rattle.jc_firewall.specs.Table.{Answers, decision};

use crate::decide::Decision;
use crate::subject::Context;

/// Law: the decision is the table's answer, and the table has no other. It does nothing.
pub fn decisions_are_the_table()
    ensures { (a : Access) (s : Situation) (d : Decision) → Answers a s d ↔ (decision a s ≡ d) }
{}

/// Law: with the runtime environment's context active all is allowed, and no call switches. It does nothing.
pub fn the_environment_may_do_all()
    ensures { (a : Access) (s : Situation) → s.active ≡ Context.Jcre
        → decision a s ≡ Decision.Allow }
{}

/// Law: where an access that can set cells is allowed to an applet's context, the object is within its reach: it is
/// its own or a global array. It does nothing.
pub fn allowed_cells_are_within_reach()
    ensures { (a : Access) (s : Situation) → SetsCells a → decision a s ≡ Decision.Allow
        → IsInReach s }
{}

/// Law: a switch is that of a virtual call or a call of a shareable interface, on an object of another context, to
/// that context. It does nothing.
pub fn calls_alone_switch()
    ensures { (a : Access) (s : Situation) (c : Context) → decision a s ≡ Decision.Switch c
        → IsSwitchOf a s c }
{}
