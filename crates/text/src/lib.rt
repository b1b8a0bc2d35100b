// What the program prints: definitions, and their laws on the bytes of replies, in specs/ alone.
#![tactic(auto)]
