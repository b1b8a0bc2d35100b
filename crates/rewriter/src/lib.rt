// The round trips of the writer: definitions and theorems in specs/ alone.
#![tactic(auto)]
