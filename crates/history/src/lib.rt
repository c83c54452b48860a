// Definitions and theorems alone: what a list of events says of a cache, over any slot and page function.
#![tactic(auto)]
