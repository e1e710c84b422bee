// What holds of both ends' bytes, whatever the link between them does; one input admits one answer. No code.
#![tactic(auto)]
