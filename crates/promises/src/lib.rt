// What a check promises: demand 3 over the file's own clauses, the words of a report, the mission, and what it shuts out; what stays where clauses are moved
// (request 13). No code that runs.
#![tactic(auto)]
