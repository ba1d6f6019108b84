// [10.9] Question 9 put to loops: definitions and laws in specs/, and no code.
#![tactic(auto)]
