// Definitions and lemmas that several crates cite. There is no code here.
#![tactic(auto)]
