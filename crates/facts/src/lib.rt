// Definitions and facts only: document 01's worked cases.
#![tactic(auto)]
