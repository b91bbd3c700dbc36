// Theorems over the kernel's definition, in specs/: condition 3 over any sequence of calls, and exactly one result.
#![tactic(auto)]
