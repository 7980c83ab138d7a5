// The theorem that both ways of bracketing the join of three tables give one answer, in specs/ alone. This crate has no code.
#![tactic(auto)]
