// How the messages of a mailbox lie in its memory: definitions and lemmas that the stores share. It has no code.
#![tactic(auto)]
