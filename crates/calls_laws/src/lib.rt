// The pack in a lent area, over histories: what is proved of its states holds of its areas. No code, only laws.
#![tactic(auto)]
