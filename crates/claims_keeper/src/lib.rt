// The claims about the lock of a file, from its parse to its transaction; no code.
#![tactic(auto)]
