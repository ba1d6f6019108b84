// The promises of the whole, stated over what the public entries do: demands 1, 2 and 3 and the cards P1 to P10. Theorems in specs/, and no
// code.
#![tactic(auto)]
