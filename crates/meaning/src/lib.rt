// The theorem that tables which mean the same have the same right answers, however their δ are written, in specs/ alone. This crate has no
// code.
#![tactic(auto)]
