// The writer's calls one after the other: definitions and laws alone.
#![tactic(auto)]
