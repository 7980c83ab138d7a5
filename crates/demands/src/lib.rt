// The theorems that every right answer meets the demands, in specs/ alone. This crate has no code.
#![tactic(auto)]
