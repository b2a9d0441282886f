// The Rust's own `simplify` and texts, and that on every block the definitions agree with the Rust. No code that runs.
#![tactic(auto)]
