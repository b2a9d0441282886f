// The Rust's own walks on its own trees, and that the flat walks equal them. No code that runs.
#![tactic(auto)]
