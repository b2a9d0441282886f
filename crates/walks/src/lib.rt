// The two walks on rows of numbers, and that they are those of `scope`: the definitions and laws that both walks in code share. No code that runs.
#![tactic(auto)]
