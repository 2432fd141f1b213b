// Lists that contracts speak of, and their laws. The crate has no code.
#![tactic(auto)]
