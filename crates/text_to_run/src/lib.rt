// The way from an S-record text to the registers, proved about the promises of `load`, `reset` and `run` (specs/TextToRun.antt). It has no
// code of its own.
#![tactic(auto)]
