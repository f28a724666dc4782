//! What is asked of a watch, and of each of its watchers.

/// How many watchers a watch has, and how many rounds each of them makes. Both are numbered from 1.
#[derive(Clone, Copy, Drop)]
pub struct Rota {
    pub watchers: u32,
    pub rounds: u32,
}

/// What one watcher is asked: with what it inspects, its number, the number of its first round, and how many rounds
/// it makes.
#[derive(Clone, Copy, Drop)]
pub struct Task<I> {
    pub inspect: I,
    pub watcher: u32,
    pub first: u32,
    pub rounds: u32,
}
