// What the definitions promise together: demands 2 and 3, the index, totals, the dense code, the listing, and the papers' examples. There is no code here.
#![tactic(auto)]
