#![tactic(auto)]

// Whole files and whole tables; definitions and theorems.
