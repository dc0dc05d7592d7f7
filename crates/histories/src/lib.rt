// Stations, calls and histories as values, and what every history of calls keeps, for every record kind and every mailbox.
// There is no code here: the calls stand in the crates above, whose contracts are over these definitions.
#![tactic(auto)]
