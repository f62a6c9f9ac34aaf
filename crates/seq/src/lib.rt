// Definitions and laws only: what a loop, and a list that a loop writes, mean.
#![tactic(auto)]
