// A page of the channel (document 02, request k): definitions and theorems.
#![tactic(auto)]
