// Lives of a device, from power-up over any calls: definitions and theorems, and no code. specs/ says what holds of every life.
#![tactic(auto)]
