// What the definitions of `scope` mean, on values, and that they mean it; what the order of rows changes and what it does not (request 13). No code that runs.
#![tactic(auto)]
