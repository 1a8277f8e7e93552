// Theorems of saved sessions; no code.

#![tactic(auto)]
