// Pure laws of resize and write: the new blob, what each slot holds then, and that in numbers that code can compute.
#![tactic(auto)]
