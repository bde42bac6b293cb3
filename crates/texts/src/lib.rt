//! Definitions that the formats of texts share, in `specs/`: their bytes, and the first of several faults. None of it is code.
#![tactic(auto)]
