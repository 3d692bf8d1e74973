// What playing calls writes: each call is answered by a line, behind those before it.
#![tactic(auto)]
