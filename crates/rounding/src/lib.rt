// Metres as whole numbers of 2 ^ -149, and the value nearest to one: definitions and laws in specs/ alone.
#![tactic(auto)]
