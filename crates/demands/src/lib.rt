#![tactic(auto)]

// The demands of document 01 as theorems about the definitions: proofs/. No function stands here.
