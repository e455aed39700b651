// Laws of the lock time: it honours what the inputs ask. Nothing here runs.
#![tactic(auto)]
