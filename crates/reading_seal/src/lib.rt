// The fact that a read gave something, which only the crate that reads can state: no crate but `reading` stands on this one.
#![tactic(auto)]
