// The laws of the format; no code.
#![tactic(auto)]
