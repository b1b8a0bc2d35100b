// What a state may hold: tuples and waiting statements as literal bytes, in specs/ alone.
#![tactic(auto)]
