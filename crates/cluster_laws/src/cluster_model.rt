//! Definitions alone: the whole state of a cluster, with the coordinator, waves, steps, windows and
//! failures, and each event with its guard and its effect.
