// Document 01's trial values, as one theorem over one table: see specs/Trials.antt.
#![tactic(auto)]
