// Laws of the definitions of the bridge, in the device's words. Each is the contract of a function that does nothing, so that
// the check asks for its proof.
#![tactic(auto)]

pub mod calls;
pub mod runs;
