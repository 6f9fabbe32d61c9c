// No code: what holds of the engine's parts together, which specs/ proves (01, demands 2 and 3, "Checked by hand"; 02, orders 2 to 5).
#![tactic(auto)]
