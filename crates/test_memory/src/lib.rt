//! Tests of sessions without memory, which neither a contract nor a row nor a call that fails can state.
#![tactic(auto)]

#[cfg(test)]
mod sessions;
