// The claims about added and struck pairs; no code.
#![tactic(auto)]
