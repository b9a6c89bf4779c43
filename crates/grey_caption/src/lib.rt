// The best grey caption (02, n): the weights that bring a 4x4 block with two given grey ends nearest to sixteen wanted greys. Definitions and
// theorems only.
#![tactic(auto)]
