// Definitions and theorems alone: what any history guarantees (docs/FORMATS.md), the cache's own definitions followed through any calls from Make on.
#![tactic(auto)]
