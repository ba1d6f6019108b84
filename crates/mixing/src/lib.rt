// Cores that are halfway through a round, [9.12] to [9.14]: every mixing of the steps of loops. Definitions and theorems in specs/, and no code.
#![tactic(auto)]
