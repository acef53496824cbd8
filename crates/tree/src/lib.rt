#![tactic(auto)]

// Forests that may stand; definitions only.
