// Theorems alone: the proof sheet of H.263. Assumes nothing.
