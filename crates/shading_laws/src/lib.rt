// Laws of the factor at one step. They speak of the definitions that `shading` meets; there is no function here.
#![tactic(auto)]
