#![tactic(auto)]

// Replays the comparison with acpi_tables 0.2.1: the standard input is what `oracle sample` prints, the expected output what
// `oracle answers` does, and so the crate's own bytes.
fn main() {
    encoded::run_all();
}
