// The sections of a stored state, as they are lent: laws in specs/ alone.
#![tactic(auto)]
