// Which plans are accepted: definitions and theorems in specs/, and no code.
#![tactic(auto)]
