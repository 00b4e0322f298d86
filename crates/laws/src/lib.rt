//! Theorems over whole runs of acts on one axis.
#![tactic(auto)]
