// What a plan is worth, what loops do, and that they agree: definitions and theorems in specs/, and no code.
#![tactic(auto)]
