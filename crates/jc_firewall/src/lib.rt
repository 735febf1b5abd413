//! The firewall: what code that runs in one context may do to the objects of another.
#![tactic(auto)]

pub mod access;
pub mod decide;
pub mod firewall_laws;
pub mod subject;
