// Blocks that agree in the bytes of a code: a theorem, and no code.
