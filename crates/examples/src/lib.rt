// The worked examples: the papers' as the rules answer them, the small policy's over its bytes. No code.
#![tactic(auto)]
