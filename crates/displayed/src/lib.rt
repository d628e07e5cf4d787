#![tactic(auto)]

// No code: what a climb needs to know about a network under a switching, the LCA mapping over it, and why its cost is local.
