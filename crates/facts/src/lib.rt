// Document 01's small facts, proved about the definitions (specs/Facts.antt). It has no code of its own.
#![tactic(auto)]
