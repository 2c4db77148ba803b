// Values that the checker computes from the definitions: the specification's at the edges, and whole runs of small jobs. There is no
// function here.
#![tactic(auto)]
