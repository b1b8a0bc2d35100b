// The two calls and the claim over two replicas: definitions and a theorem in specs/ alone.
#![tactic(auto)]
