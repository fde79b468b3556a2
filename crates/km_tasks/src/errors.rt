//! Why a task is neither started nor found.

use thiserror::Error;

/// Why a task is not started.
#[derive(Clone, Copy, Debug, Error, PartialEq)]
pub enum TaskFault {
    #[error("task exists")]
    TaskExists,
    #[error("too many tasks")]
    TooManyTasks,
    #[error("no room")]
    NoRoom,
}

/// No live task has the name.
#[derive(Clone, Copy, Debug, Error, PartialEq)]
#[error("no such task")]
pub struct NoTask;
