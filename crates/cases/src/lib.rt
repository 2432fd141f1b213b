// The bench cases C1 to C12, proved of the definitions that the contracts cite. The crate has no code.
#![tactic(auto)]
