// The order of far-apart draws: theorems on the definitions that the contracts cite. The crate has no code.
#![tactic(auto)]
