// The FUSB302B as 01 describes it: definitions and theorems, and no code. specs/ is the device, section by section.
#![tactic(auto)]
