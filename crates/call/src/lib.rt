// What a call on a table promises, stated once for every such call: what is lent to it, what it asks, its refusals,
// what it leaves in the lent buffers. Definitions and laws; there is no function here.
#![tactic(auto)]
