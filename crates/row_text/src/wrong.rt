use cache_types::NoMemory;
use std::alloc::{AllocError, AllocFailed, Global};

/// Why a row can't be read, or doesn't hold.
#[derive(Drop)]
pub enum Wrong {
    /// Memory ran out while it was played.
    NoMemory,
    /// This, in words.
    Found(String),
}

impl Wrong {
    /// This is wrong.
    pub fn of(alloc: Global, text: &str) -> Wrong {
        match String::from_str(alloc, text) {
            Ok(text) => Wrong::Found(text),
            Err(_) => Wrong::NoMemory,
        }
    }

    /// What is wrong, in words.
    pub fn text(&self) -> &str {
        match self {
            Wrong::NoMemory => "there was no memory to play it",
            Wrong::Found(text) => text.as_str(),
        }
    }
}

impl From<NoMemory> for Wrong {
    fn from(_error: NoMemory) -> Wrong {
        Wrong::NoMemory
    }
}

impl From<AllocError> for Wrong {
    fn from(_error: AllocError) -> Wrong {
        Wrong::NoMemory
    }
}

impl<T: Drop> From<AllocFailed<T>> for Wrong {
    fn from(_refused: AllocFailed<T>) -> Wrong {
        Wrong::NoMemory
    }
}
