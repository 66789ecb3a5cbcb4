//! Definitions alone: what the machines of a cluster hold of scopes, locks, numbers, tasks and
//! snapshots, what they tell one another, each action with its guard and its effect, and the
//! coherent state.
