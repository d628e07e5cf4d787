#![tactic(auto)]

// No code: what the search for the cheapest switching computes, and the theorem that its result is least of all switchings.
