#![tactic(auto)]

// The normal-form file; definitions and laws.
