// Theorems only: a symbolic block (01: sheet) with 255 for each number above it where the struct has a byte is refused alike.
#![tactic(auto)]
