// Theorems about the calls and the definitions. There is no code here.
#![tactic(auto)]
