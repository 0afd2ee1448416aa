//! What is claimed of a run of the program: its commands by their words, what each writes, its statuses and their last lines.
#![tactic(auto)]
