// The claims about the text of `why`; no code.
#![tactic(auto)]
