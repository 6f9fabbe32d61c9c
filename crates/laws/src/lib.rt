// No code: the definitions and laws in specs/ that the engine's contracts and theorems share.
#![tactic(auto)]
