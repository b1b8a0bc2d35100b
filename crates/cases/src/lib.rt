// The worked cases of documents 01 and 02: one theorem over a table, in specs/ alone.
#![tactic(auto)]
