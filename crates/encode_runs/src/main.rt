#![tactic(auto)]

// Runs encoding on every kind in every place, on each refusal and on the limits: crate `encoded` on this program's standard input.
fn main() {
    encoded::run_all();
}
