// What document 02, wish 3, promises: a frame held on the screen is one frame. Laws alone, since no function's proof uses them.
#![tactic(auto)]
