#![tactic(auto)]

// No code: the report as 01 words it, beside the definitions that compute it.
