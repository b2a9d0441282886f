// The laws by which other crates take a definition of `scope` one step further, free of fuel. No code that runs.
#![tactic(auto)]
