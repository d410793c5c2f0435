// What holds of images from call to call: theorems, no code.
#![tactic(auto)]
